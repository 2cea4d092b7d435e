// The constant's operation: questions 21 and 22, the fractions, question 23, and the constant.
ghost use Rattle.std.specs.Prelude.{◌≡◌};
ghost use Rattle.gravity_constant.specs.Answer.{RightConstant};
ghost use Rattle.gravity_constant.specs.Chosen.{constant_at, answer_at, answer_of};

use crate::formula::{N_OF_ZERO, THOUSANDTHS};
use crate::fractions::Fractions;
use crate::questions::{Density, Refusal, Temperature, ask};
use laws::signed_difference;

// The constant in thousandths, and the numerators of the two fractions over Q that enclose the logarithm.
#[derive(Clone, Copy, Debug, PartialEq, Eq)]
pub struct Constant {
    pub thousandths: i32,
    pub lower: i32,
    pub upper: i32,
}

// The constant of a density, from the lower n: with signs.
#[tactic(auto, unfolding(crate::specs::Chosen::constant_at))]
fn constant_at(fractions: Fractions, density: Density) -> Constant
    ensures { result ≡ constant_at fractions.lower.temperature density fractions.lower.n }
{
    let lower = fractions.lower;
    Constant {
        thousandths: signed_difference(lower.count(density), THOUSANDTHS),
        lower: signed_difference(lower.n, N_OF_ZERO),
        upper: signed_difference(fractions.upper().n, N_OF_ZERO),
    }
}

// The answer from the lower n: question 23, of both fractions, then the constant.
#[tactic(auto, unfolding(crate::specs::Chosen::answer_at))]
fn answer_at(fractions: Fractions, density: Density) -> Result<Constant, Refusal>
    ensures { result ≡ answer_at fractions.lower.temperature density fractions.lower.n }
{
    if fractions.lower.divides() && fractions.upper().divides() {
        Ok(constant_at(fractions, density))
    } else {
        Err(Refusal::DivisorNotAboveZero)
    }
}

// The constant's operation: the answer to any viscosity at either temperature and any density. v and d are plain numbers until the questions are asked, as
// they are in C.
pub fn answer_constant(t: Temperature, v: u32, d: u32) -> Result<Constant, Refusal>
    ensures value { result ≡ answer_of t v d }
    ensures right { RightConstant t v d result }
{
    let oil = ask(t, v, d)?;
    answer_at(Fractions::new(oil.viscosity), oil.density)
}
