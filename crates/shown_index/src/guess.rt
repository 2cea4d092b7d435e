// Guesses of k from p by polynomials, which nothing leans on. tools/guesses computes the coefficients.
ghost use Rattle.std.specs.Prelude.{◌<◌, ◌≤◌, ◌+◌};
ghost use Rattle.logarithm.specs.Fractions.{Q_number};
ghost use Rattle.shown_index.specs.Terms.{least_index, most_index};

use crate::compare::{C_AT_100, C_PER_HUNDREDTH};
use crate::{Fractions, LEAST_INDEX, MOST_INDEX};
use logarithm::Q;

// One multiplication and addition of the polynomials below: a + v · f, f in units of 1 / Q. a is below 2^33 and v below 2^34, so that the
// product fits 64 bits. Both polynomials are written out step by step: one function over a list of coefficients would be no plainer, since it would ask of the
// list what is seen of each step, that the next v is below 2^34.
fn multiply_add(a: u64, v: u64, f: u64) -> u64
    requires { (a < 8589934592) × (v < 17179869184) × (f < Q_number) }
    ensures { (a ≤ result) × (result ≤ a + v) }
{
    a + v * f / Q
}

// 2^(f / Q) in units of 2^-32, for f below Q: the polynomial of the fourth degree that fits best, off by at most 4 millionths
// (tools/guesses).
fn power_of_two(f: u64) -> u64
    requires { f < Q_number }
    ensures { result < 17179869184 }
{
    let cubic = multiply_add(222_008_401, 58_831_018, f);
    let square = multiply_add(1_037_829_223, cubic, f);
    let linear = multiply_add(2_976_266_834, square, f);
    multiply_add(4_294_983_206, linear, f)
}

// By how much c grows from one whole index to the next.
const C_GROWTH: u64 = 100 * C_PER_HUNDREDTH;

// A guess of k from p: 10^(p / Q) as a power of two, then the index at it, rounded. 217,706 / 2^16 is close to log2 10. k stays a number in
// this crate, beside the fractions too: it is reckoned with at each use (100 · k + 50, k + 1, k − 100), so that a type around it would be taken apart
// everywhere.
pub fn guess(n: Fractions) -> u64
    ensures { (least_index ≤ result) × (result < most_index) }
{
    let z = n.lower * 217_706 / 65_536;
    let c = (C_AT_100 * power_of_two(z % Q) / 4_294_967_296) << (z / Q % 8);
    if c < C_AT_100 {
        return LEAST_INDEX;
    }
    let k = (c - C_AT_100 + LEAST_INDEX * C_GROWTH + C_GROWTH / 2) / C_GROWTH;
    k.clamp(LEAST_INDEX, MOST_INDEX - 1)
}

// A guess of k from p where the table of thresholds reaches. The index and a half, in units of 2^-22: the polynomial of the fifth degree in p / Q
// that fits best there, off by at most 0.003 (tools/guesses).
pub fn guess_in_table(p: u64) -> u64
    ensures { (least_index ≤ result) × (result < most_index) }
{
    let f = p % Q;
    let fourth = multiply_add(354_094_440, 702_301_534, f);
    let cubic = multiply_add(1_317_593_450, fourth, f);
    let square = multiply_add(1_534_706_678, cubic, f);
    let linear = multiply_add(1_351_945_917, square, f);
    multiply_add(421_515_893, linear, f) / 4_194_304
}
