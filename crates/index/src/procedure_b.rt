// Procedure B: the index of an oil below H.
//
// With Y = y / 1000 and N = log(H / U) / log(Y) the index is (10^N − 1) / 0.00715 + 100. The logarithms of y, U and H, each enclosed by whole powers
// (crate logarithm), give p / Q at or below N and P / Q at or above it, Q = 2^24 and P at most p + 2; which index they show is crate shown_index's
// part.
ghost use Rattle.std.specs.Prelude.{◌≡◌};
ghost use Rattle.index.specs.ChosenFractions.{lower_from, upper_from, by_b_of, FoundFractions};
ghost use Rattle.index.specs.Preconditions.{InBounds, OilBelowH};

use logarithm::{LOG_1000, Q, WIDTH};
use shown_index::{ByB, Fractions};

// An oil below H: its two viscosities in thousandths of a mm²/s, and H in units of 10^-10 mm²/s. Of a pair, H is the one at its y; crate span asks for an H at
// another y.
#[derive(Clone, Copy, Debug, PartialEq, Eq)]
pub struct Oil {
    pub u: u32,
    pub y: u32,
    pub h: u64,
}

// The logarithms of y, U and H, each at or below its value, by at most WIDTH.
#[derive(Clone, Copy, Debug)]
struct Logarithms {
    y: u64,
    u: u64,
    h: u64,
    ghost bounds: { InBounds y u h },
}

impl Logarithms {
    // p: N rounded down, with every logarithm on the side that makes it smaller.
    #[tactic(auto, unfolding(crate::specs::ChosenFractions::lower_from))]
    fn lower_numerator(self) -> u64
        ensures { result ≡ lower_from self.y self.u self.h }
    {
        if self.h <= self.u + WIDTH {
            return 0;
        }
        Q * (self.h - (self.u + WIDTH)) / (self.y + WIDTH - LOG_1000)
    }

    // P: the first after p that is not below N, with every logarithm on the side that makes N greater. It is p + 1 or p + 2, so one product
    // tells, and no second division is needed.
    #[tactic(auto, using(crate::proofs::Numerators::lower_small), unfolding(crate::specs::ChosenFractions::upper_from))]
    fn upper_numerator(self, p: u64) -> u64
        requires { p ≡ lower_from self.y self.u self.h }
        ensures { result ≡ upper_from self.y self.u self.h p }
    {
        if Q * (self.h + WIDTH - self.u) <= (p + 1) * (self.y - (LOG_1000 + 1)) {
            return p + 1;
        }
        p + 2
    }
}

// p and P of an oil below H.
#[tactic(auto, using(crate::proofs::OilLogarithms::y_range, crate::proofs::OilLogarithms::units_range, crate::proofs::OilLogarithms::h_range, crate::proofs::OilNumerators::bounded))]
fn fractions_of(oil: Oil) -> Fractions
    requires { OilBelowH oil }
    ensures { FoundFractions oil result.lower result.upper }
{
    let logs = Logarithms {
        y: logarithm::log2_scaled(u64::from(oil.y)),
        u: logarithm::log2_scaled(reference::in_units(oil.u)),
        h: logarithm::log2_scaled(oil.h),
    };
    let lower = logs.lower_numerator();
    let upper = logs.upper_numerator(lower);
    Fractions { lower, upper }
}

// Procedure B: a function of its own in the machine code, so that an oil at or above H does not pay for it.
#[inline(never)]
#[tactic(auto, using(crate::proofs::OilNumerators::by_b_is))]
pub fn procedure_b(oil: Oil) -> ByB
    requires { OilBelowH oil }
    ensures { result ≡ by_b_of oil }
{
    shown_index::index_of_fractions(fractions_of(oil))
}
