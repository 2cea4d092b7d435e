// The pair operation: the questions, then the procedure that H decides on.
ghost use Rattle.std.specs.Prelude.{◌≡◌};
ghost use Rattle.index.specs.Answer.{RightAnswer};
ghost use Rattle.index.specs.ChosenAnswer.{index_passed, answer_of};
ghost use Rattle.index.specs.Preconditions.{Passes};

use crate::answer::{Answer, Index};
use crate::procedure_a::rounded_a;
use crate::procedure_b::{Oil, procedure_b};
use crate::questions::{Viscosities, ask};
use reference::{Located, ReferenceOil};

// The index of a pair that passes the questions. Procedure B needs no L, so H comes first; both are found at one place.
// Laid out where it is called: a sheet asks it for every pair, and an oil at or above H needs little else.
#[inline(always)]
#[tactic(auto, using(crate::proofs::Cases::index_below, crate::proofs::Cases::index_above))]
fn index_passed(pair: Viscosities) -> Index
    requires { Passes pair.u pair.y }
    ensures { result ≡ index_passed pair.u pair.y }
{
    let at40 = pair.u;
    let at100 = pair.y;
    let u = at40.thousandths;
    let y = at100.thousandths;
    let located = Located::new(at100);
    let h = located.value(ReferenceOil::H);
    let units = reference::in_units(u);
    if units < h {
        return Index::B(procedure_b(Oil { u, y, h }));
    }
    let l = located.value(ReferenceOil::L);
    Index::A(rounded_a(l, h, units))
}

// The pair operation: the answer to any two numbers. u and y are plain numbers until the questions are asked, as they are in a sheet and in C.
#[inline(always)]
#[tactic(auto, using(crate::proofs::Cases::refused_answer, crate::proofs::Cases::passed_pair, crate::proofs::Cases::passes_asked, crate::proofs::Right::right))]
pub fn answer_pair(u: u32, y: u32) -> Answer
    ensures value { result ≡ answer_of u y }
    ensures right { RightAnswer u y result }
{
    Ok(index_passed(ask(u, y)?))
}
