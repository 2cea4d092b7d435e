// What p and P show of an index, told by logarithms.
ghost use Rattle.std.specs.Prelude.{◌≡◌, ◌≤◌, ◌+◌, ◌*◌, ◌-◌, leb};
ghost use Rattle.logarithm.specs.Scale.{width, log10, log10000000};
ghost use Rattle.logarithm.specs.Log2.{log2_of};
ghost use Rattle.logarithm.specs.Fractions.{Q_number};
ghost use Rattle.shown_index.specs.Terms.{c, least_index, most_index};
ghost use Rattle.shown_index.specs.ChosenIndex.{shows_least};
ghost use Rattle.shown_index.specs.Preconditions.{LogOfC, least_r, most_r};

use crate::{Fractions, LEAST_INDEX};
use logarithm::{LOG_10, LOG_10_7, Q, WIDTH};

// c at an index of 100, which is 10^7, and by how much c grows from one hundredth of an index to the next.
pub const C_AT_100: u64 = 10_000_000;

pub const C_PER_HUNDREDTH: u64 = 715;

// c(r) = 10,000,000 + 715 · (r − 10,000), 10^7 times 10^N at an index of r hundredths.
fn c_of(r: u64) -> u64
    requires { (least_r ≤ r) × (r ≤ most_r) }
    ensures { result ≡ c r }
{
    C_AT_100 + C_PER_HUNDREDTH * r - C_PER_HUNDREDTH * (100 * LEAST_INDEX)
}

// The logarithm of a c(r). 10^7 is taken off it where it is compared, so that the products fit 64 bits.
#[derive(Clone, Copy, Debug)]
pub struct LogC {
    pub log: u64,
    ghost range: { LogOfC log },
}

impl LogC {
    // Of c at an r at which the code looks.
    #[tactic(auto, using(crate::proofs::Shows::log_of_c))]
    pub fn of(r: u64) -> LogC
        requires { (100 * least_index + 50 ≤ r) × (r ≤ 100 * most_index + 50) }
        ensures { result.log ≡ log2_of (c r) }
    {
        LogC {
            log: logarithm::log2_scaled(c_of(r)),
        }
    }

    // Do the logarithms show that p shows "at least r"?
    pub fn shows_least(self, n: Fractions) -> bool
        ensures { result ≡ leb ((self.log + width) * Q_number) (log10 * n.lower + log10000000 * Q_number) }
    {
        (self.log + WIDTH - LOG_10_7) * Q <= LOG_10 * n.lower
    }

    // Do the logarithms show that P shows "at most r"?
    pub fn shows_most(self, n: Fractions) -> bool
        ensures { result ≡ leb ((log10 + 1) * n.upper + (log10000000 + 1) * Q_number) (self.log * Q_number) }
    {
        (LOG_10 + 1) * n.upper <= (self.log - (LOG_10_7 + 1)) * Q
    }
}

// Is at least k − 0.5 shown? Of 100 it always is: c is below 10^7 there.
#[tactic(auto, using(crate::proofs::Halving::hundred_shown), unfolding(crate::specs::ChosenIndex::shows_least))]
pub fn shown_below(k: u64, n: Fractions) -> bool
    requires { (least_index ≤ k) × (k ≤ most_index) }
    ensures { result ≡ shows_least n.lower (100 * k - 50) }
{
    if k <= LEAST_INDEX {
        return true;
    }
    LogC::of(100 * k - 50).shows_least(n)
}
