// The logarithm to the base 2 of a whole number, enclosed by whole-number powers.
//
// For 1 <= x < 2^49, log2_scaled gives r with 2^r <= x^E and x^E <= 2^(r + 20), where E = 2^36: r / E is at or below log2(x), by at most
// 20 / E. It never falls as x rises (proofs/Rise.antt). There is no loop.
//
// 1. x is shifted up to a mantissa m of 49 bits, UNIT <= m < 2 * UNIT; the shift is the whole part of the logarithm.
// 2. First level: the slot of m among 256 slots, FIRST_SPACING apart, gives a factor (D - j) / D, D = FIRST_DIVISOR, and
//    the logarithm of D / (D - j). m times the factor, rounded down, is at most FIRST_SPACING above UNIT.
// 3. Second level: the same with 256 slots of SECOND_SPACING and D = SECOND_DIVISOR. What is left is below UNIT + room,
//    room = 4328391680.
// 4. The tail: the rest d over UNIT counts d * SLOPE / SLOPE_DIVISOR: a straight line at or below the curve.
//
// The width 20: at most 6 from the first table (t is rounded down, and lowered by at most 5 so that nothing falls from one slot to the
// next), 1 from the second table, 13 from the tail (12 where the tail is farthest from the curve, 1 for rounding).
// Rounding m down costs less than 1/1000 and is part of the 6 and the 1.
//
// The numbers: the tables are written by tools/log-tables, which explains each entry; the spacings are 2^40 and 2^32, so that 256 slots
// fill the mantissas of each level; the divisors are 2^16 and 2^23, the greatest whose j stays below PACKING and m * j below 2^64;
// SLOPE is log2((M + 1) / M) * 2^76 rounded down, M = UNIT + room, the curve's slope at its far end, where it is least
// (tools/log-tables --constants). Every divisor is a power of two, so no division is left in the machine code.
#![tactic(auto)]

mod tables;

ghost use Rattle.std.specs.Prelude.{◌≡◌, ◌+◌, ◌*◌, ◌-◌, ◌/◌, ◌≤◌, ◌<◌};
ghost use Rattle.logarithm.specs.Scale.{unit};
ghost use Rattle.logarithm.specs.Tables.{first_table, second_table};
ghost use Rattle.logarithm.specs.Log2.{Enclosed, Reduces, fraction_of, packing, slot_count};
ghost use Rattle.logarithm.specs.Preconditions.{InRange};

use tables::{FIRST, SECOND};

// 2^48, which a mantissa counts as 1.
const UNIT: u64 = 281474976710656;

// E = 2^36, the units of a logarithm in 1.
const SCALE: u64 = 68719476736;

// An entry is t * PACKING + j.
const PACKING: u64 = 32768;

// How many entries a table has.
const SLOT_COUNT: usize = 256;

pub const LOG_TABLE_SIZE: usize = SLOT_COUNT;

// The first level: slots 2^40 apart, factors over 2^16.
const FIRST_SPACING: u64 = 1099511627776;

const FIRST_DIVISOR: u64 = 65536;

// The second level: slots 2^32 apart, factors over 2^23.
const SECOND_SPACING: u64 = 4294967296;

const SECOND_DIVISOR: u64 = 8388608;

// The tail: d over UNIT counts d * SLOPE / 2^40.
const SLOPE: u64 = 387264545;

const SLOPE_DIVISOR: u64 = 1099511627776;

// The leading zeros of half a mantissa, a number of 48 bits, and of half of 1, which is 0.
const MANTISSA_ZEROS: u64 = 16;

const ONE_ZEROS: u64 = 64;

// How far above its value a logarithm may lie, in units of 1 / E.
pub const WIDTH: u64 = 20;

// The logarithms of 10, 1000 and 10^7, rounded down, for crates that compare with them. Each is certified in proofs/Constants.antt.
pub const LOG_10: u64 = 228_281_160_435;

pub const LOG_1000: u64 = 684_843_481_305;

pub const LOG_10_7: u64 = 1_597_968_123_046;

// Q = 2^24, the denominator of the fractions that crates above enclose logarithms by.
pub const Q: u64 = 16_777_216;

// What a level leaves of a mantissa, and the logarithm of the factor that it took out.
#[derive(Clone, Copy, Debug)]
struct Reduced {
    mantissa: u64,
    log: u64,
}

// The logarithm in an entry.
fn log_in(entry: u64) -> u64
    ensures { (result ≡ entry / packing) × (result < 2 * unit) }
{
    entry / PACKING
}

// One level: m times the factor over d that the table has for its slot, rounded down. Slots are s apart.
#[tactic(auto, unfolding(crate::specs::Log2::level_rest, crate::specs::Log2::level_log, crate::specs::Log2::entry_of, crate::specs::Log2::entry_at, crate::specs::Log2::times_factor))]
fn reduce(table: &[u64; SLOT_COUNT], m: u64, s: u64, d: u64) -> Reduced
    requires { (unit ≤ m) × (m < 2 * unit) × (0 < s) × (packing ≤ d) × (d ≤ unit) × ((m - unit) / s < slot_count) }
    ensures { Reduces table.now s d m result.mantissa result.log }
{
    let p = table[((m - UNIT) / s) as usize];
    let log = log_in(p);
    Reduced {
        mantissa: m - (m * (p % PACKING) + (d - 1)) / d,
        log,
    }
}

// The logarithm of m / UNIT. The source's tables are those of specs/.
#[tactic(auto, using(crate::proofs::Log2::first_level, crate::proofs::Log2::second_level), unfolding(crate::specs::Tables::first_table, crate::specs::Tables::second_table, crate::specs::Log2::fraction_of, crate::specs::Log2::rest_of, crate::specs::Log2::tail_of))]
fn fraction(m: u64) -> u64
    requires { (unit ≤ m) × (m < 2 * unit) }
    ensures value { (result ≡ fraction_of m) × (result < 16 * unit) }
    ensures table { (FIRST ≡ first_table) × (SECOND ≡ second_table) }
{
    let a = reduce(&FIRST, m, FIRST_SPACING, FIRST_DIVISOR);
    let b = reduce(&SECOND, a.mantissa, SECOND_SPACING, SECOND_DIVISOR);
    a.log + (b.log + (b.mantissa - UNIT) * SLOPE / SLOPE_DIVISOR)
}

// The two tables, where they lie.
#[tactic(auto, unfolding(crate::specs::Tables::first_table))]
pub fn first_table() -> &'static [u64; LOG_TABLE_SIZE]
    ensures { result.now ≡ first_table }
{
    &FIRST
}

#[tactic(auto, unfolding(crate::specs::Tables::second_table))]
pub fn second_table() -> &'static [u64; LOG_TABLE_SIZE]
    ensures { result.now ≡ second_table }
{
    &SECOND
}

// The scaled logarithm of x. An inner function, for callers that know x to be in its range.
#[tactic(auto, using(crate::proofs::Log2::normal, crate::proofs::Log2::shift_fits, crate::proofs::Log2::log2_enclosed), unfolding(crate::specs::Log2::zeros_of, crate::specs::Log2::log2_of))]
pub fn log2_scaled(x: u64) -> u64
    requires { InRange x }
    ensures { Enclosed x result }
{
    // Of x / 2 and not of x: x86's instruction waits for the register that it writes, and the compiler clears that register first only where the
    // number may be 0. Of x, known not to be 0, each logarithm would wait for the one before (docs/PERFORMANCE.md).
    let zeros = u64::from((x / 2).leading_zeros());
    fraction(x << (zeros - MANTISSA_ZEROS)) + (ONE_ZEROS - zeros) * SCALE
}
