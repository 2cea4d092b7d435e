// The span of the index where both viscosities are known within limits: the least index over all y at the greatest u, and the greatest over all y at the
// least u. Module `questions` asks the limits; `bound` gives a bound of the indices of a stretch of y, by which `extreme` passes over stretches that cannot hold
// what is sought, so that few of the pairs are worked out.
#![tactic(auto)]

mod bound;
mod extreme;
mod questions;

ghost use Rattle.std.specs.Prelude.{◌≡◌};
ghost use Rattle.span.specs.Span.{span_passed, span_of, RightSpan};
ghost use Rattle.span.specs.Preconditions.{InLimits};

use extreme::Extreme;
pub use questions::Refusal;
use questions::{Limits, ask};

// The two indices of a span.
#[derive(Clone, Copy, Debug, PartialEq, Eq)]
pub struct Span {
    pub least: i32,
    pub greatest: i32,
}

// The span of limits that pass the questions.
fn span_passed(limits: Limits) -> Span
    requires { InLimits limits.u1 limits.u2 limits.y1 limits.y2 }
    ensures { result ≡ span_passed limits.u1 limits.u2 limits.y1 limits.y2 }
{
    Span {
        least: Extreme::Least.over(limits.u2, limits.y1, limits.y2),
        greatest: Extreme::Greatest.over(limits.u1, limits.y1, limits.y2),
    }
}

// The span's operation: the answer to any four numbers. They are plain numbers until the questions are asked, as they are in C.
#[tactic(auto, using(crate::proofs::Cases::refused_answer, crate::proofs::Right::right))]
pub fn answer_span(u1: u32, u2: u32, y1: u32, y2: u32) -> Result<Span, Refusal>
    ensures value { result ≡ span_of u1 u2 y1 y2 }
    ensures right { RightSpan u1 u2 y1 y2 result }
{
    Ok(span_passed(ask(u1, u2, y1, y2)?))
}
