// The two fractions that enclose the logarithm of formula 1 or 2, counted from −3: with x the thousandths that it is taken of, n / Q is at or below the
// logarithm of the number x, and (n + APART) / Q at or above it.
ghost use Rattle.std.specs.Prelude.{◌≡◌, ◌≤◌, ◌+◌, ◌*◌};
ghost use Rattle.logarithm.specs.Scale.{log10};
ghost use Rattle.gravity_constant.specs.Chosen.{apart, most_digits, most_upper, lower_from, lower_of};

use crate::formula::Fraction;
use crate::questions::Viscosity;
use logarithm::{LOG_10, Q};

// How far the upper n is above the lower one: so far that the width of a logarithm and the rounding of both never reach it.
const APART: u64 = 2;

// A quarter of Q, and of log2(10) rounded up, both whole: so the product of the first and a logarithm fits 64 bits.
const QUARTER_Q: u64 = Q / 4;

const QUARTER_LOG_10: u64 = (LOG_10 + 1) / 4;

// The two fractions of a viscosity: the lower one, which leaves room for the upper n.
#[derive(Clone, Copy, Debug)]
pub struct Fractions {
    pub lower: Fraction,
    ghost room: { lower.n + apart ≤ most_upper lower.temperature },
}

// From the logarithm to the base 2 to the lower n: rounded down, with log2(10) rounded up.
#[tactic(auto, unfolding(crate::specs::Chosen::lower_from))]
fn lower_from(l: u64) -> u64
    requires { l ≤ most_digits * (log10 + 1) }
    ensures { result ≡ lower_from l }
{
    QUARTER_Q * l / QUARTER_LOG_10
}

impl Fractions {
    #[tactic(auto, unfolding(crate::specs::Chosen::lower_of))]
    pub fn new(viscosity: Viscosity) -> Self
        ensures { (result.lower.temperature ≡ viscosity.temperature) × (result.lower.n ≡ lower_of viscosity.temperature viscosity.thousandths) }
    {
        let lower = Fraction {
            temperature: viscosity.temperature,
            n: lower_from(logarithm::log2_scaled(viscosity.argument())),
        };
        Fractions { lower }
    }

    pub fn upper(self) -> Fraction
        ensures { (result.temperature ≡ self.lower.temperature) × (result.n ≡ self.lower.n + apart) }
    {
        Fraction {
            temperature: self.lower.temperature,
            n: self.lower.n + APART,
        }
    }
}
