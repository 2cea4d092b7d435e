// Formulas 1 and 2 of source document 001, at a fraction, and the constant there. G is the density in g/ml, V and V′ are the viscosities in mm²/s, the
// logarithm is to the base 10:
//   formula 1, at 40 °C    (G − 0.0664 − 0.1154·log(V − 5.5)) / (0.94 − 0.109·log(V − 5.5))
//   formula 2, at 100 °C   (G − 0.108 − 0.1255·log(V′ − 0.8)) / (0.90 − 0.097·log(V′ − 0.8))
// The viscosity is in thousandths here, and all else in 0.0001.
ghost use Rattle.std.specs.Prelude.{◌≡◌, ◌<◌, ◌≤◌, ◌+◌, ◌*◌, ◌^◌};
ghost use Rattle.logarithm.specs.Fractions.{Q_number};
ghost use Rattle.gravity_constant.specs.Formula.{argument};
ghost use Rattle.gravity_constant.specs.Chosen.{formula_of, shift, digits, most_upper, most_count, less_logarithm, divisor_at, sum_at, nearest_thousandth, count_at, divides_at};
ghost use Rattle.gravity_constant.specs.Preconditions.{most_top, least_divisor};

use crate::questions::{Density, Temperature, Viscosity};
use logarithm::Q;

// The five numbers of a formula.
#[derive(Clone, Copy, Debug)]
pub struct Formula {
    // 5.5 or 0.8, taken off the viscosity.
    pub viscosity_taken: u32,

    // 0.0664 or 0.108, taken off the density.
    pub density_taken: u64,

    // 0.1154 or 0.1255, by which the dividend falls where the logarithm rises by 1.
    pub dividend_slope: u64,

    // 0.94 or 0.90, the divisor where the logarithm is 0.
    pub divisor_start: u64,

    // 0.109 or 0.097, by which the divisor falls where the logarithm rises by 1.
    pub divisor_slope: u64,
}

// Formula 1.
const AT_40: Formula = Formula {
    viscosity_taken: 5_500,
    density_taken: 664,
    dividend_slope: 1_154,
    divisor_start: 9_400,
    divisor_slope: 1_090,
};

// Formula 2.
const AT_100: Formula = Formula {
    viscosity_taken: 800,
    density_taken: 1_080,
    dividend_slope: 1_255,
    divisor_start: 9_000,
    divisor_slope: 970,
};

// The logarithm of 1000: by so much n / Q, the logarithm of the number x, is above that of x thousandths of a mm²/s.
const SHIFT: u64 = 3;

// The n of a logarithm of 0.
pub const N_OF_ZERO: u64 = SHIFT * Q;

// How many thousandths 1 has.
pub const THOUSANDTHS: u64 = 1_000;

impl Temperature {
    // The formula of a temperature.
    fn formula(self) -> Formula
        ensures { result ≡ formula_of self }
    {
        match self {
            Temperature::At40 => AT_40,
            Temperature::At100 => AT_100,
        }
    }
}

impl Viscosity {
    // What the logarithm is taken of, in thousandths: V − 5.5 or V′ − 0.8.
    pub(crate) fn argument(self) -> u64
        ensures { (result ≡ argument self.temperature self.thousandths) × (1 ≤ result) × (result ≤ 10 ^ digits self.temperature) }
    {
        u64::from(self.thousandths - self.temperature.formula().viscosity_taken)
    }
}

// start − slope times the logarithm n / Q − 3, times Q.
fn less_logarithm(start: u64, slope: u64, n: u64) -> u64
    requires { (start + shift * slope ≤ most_top) × (slope * n ≤ (start + shift * slope) * Q_number) }
    ensures { result ≡ less_logarithm start slope n }
{
    (start + SHIFT * slope) * Q - slope * n
}

// sum / divisor in thousandths, to the nearest.
fn nearest_thousandth(sum: u64, divisor: u64) -> u64
    requires { (sum ≤ most_top * Q_number) × (0 < divisor) × (divisor ≤ most_top * Q_number) }
    ensures { result ≡ nearest_thousandth sum divisor }
{
    (2 * THOUSANDTHS * sum + divisor) / (2 * divisor)
}

// A fraction n / Q, at or beside the logarithm of a viscosity at that temperature.
#[derive(Clone, Copy, Debug)]
pub struct Fraction {
    pub temperature: Temperature,
    pub n: u64,
    ghost within: { n ≤ most_upper temperature },
}

impl Fraction {
    // The divisor.
    fn divisor(self) -> u64
        ensures { (result ≡ divisor_at self.temperature self.n) × (least_divisor * Q_number ≤ result) × (result ≤ most_top * Q_number) }
    {
        let formula = self.temperature.formula();
        less_logarithm(formula.divisor_start, formula.divisor_slope, self.n)
    }

    // The dividend and the divisor together: where the logarithm is greatest, the dividend may be below zero, and the sum never is.
    fn sum(self, density: Density) -> u64
        ensures { (result ≡ sum_at self.temperature density self.n) × (result ≤ most_top * Q_number) }
    {
        let formula = self.temperature.formula();
        less_logarithm(
            u64::from(density.tenthousandths) + formula.divisor_start - formula.density_taken,
            formula.dividend_slope + formula.divisor_slope,
            self.n,
        )
    }

    // The constant to the nearest thousandth, counted from −1000 thousandths.
    #[tactic(auto, using(crate::proofs::Fits::few_counts), unfolding(crate::specs::Chosen::count_at))]
    pub fn count(self, density: Density) -> u64
        ensures { (result ≡ count_at self.temperature density self.n) × (result < most_count) }
    {
        nearest_thousandth(self.sum(density), self.divisor())
    }

    // Question 23, of one fraction: is the divisor above zero? It compares and does not subtract, since a divisor below zero is no number of 64 bits
    // without sign. The answer is always yes.
    pub fn divides(self) -> bool
        ensures { result ≡ divides_at self.temperature self.n }
    {
        let formula = self.temperature.formula();
        formula.divisor_slope * self.n < (formula.divisor_start + SHIFT * formula.divisor_slope) * Q
    }
}
