// Questions 41 and 42, and questions 1 to 4 as they are put to limits.
ghost use Rattle.std.specs.Prelude.{◌≡◌};
ghost use Rattle.span.specs.declared.questions.Refusal.TheVariants.{Pair};
ghost use Rattle.span.specs.Questions.{number_of_refusal, asked_of};

use reference::{Kv40, Kv100};

// Why limits are refused.
#[derive(Clone, Copy, Debug, PartialEq, Eq)]
pub enum Refusal {
    // "41 a lower limit above its upper"
    LowerAboveUpper,
    // "42 y2 − y1 above 200"
    TooWide,
    // One of the pair's own questions
    Pair(index::Refusal),
}

impl From<index::Refusal> for Refusal {
    ghost from_gives = { λ question refusal. refusal ≡ Pair question };

    fn from(question: index::Refusal) -> Refusal {
        Refusal::Pair(question)
    }
}

// Its number.
impl From<Refusal> for u8 {
    ghost from_gives = { λ refusal number. number ≡ number_of_refusal refusal };

    fn from(refusal: Refusal) -> u8 {
        match refusal {
            Refusal::LowerAboveUpper => 41,
            Refusal::TooWide => 42,
            Refusal::Pair(question) => u8::from(question),
        }
    }
}

// How far y2 may lie above y1.
const WIDEST: u32 = 200;

// The limits between which u and y are known.
#[derive(Clone, Copy, Debug, PartialEq, Eq)]
pub struct Limits {
    pub u1: u32,
    pub u2: u32,
    pub y1: u32,
    pub y2: u32,
}

// Questions 41 and 42, then 1 to 4. The constructors ask two questions of each y, 1 and 2; of limits that are in order y1 fails the second only where y2 does.
#[tactic(auto, using(crate::proofs::Asked::turned_u, crate::proofs::Asked::turned_y, crate::proofs::Asked::too_wide, crate::proofs::Asked::lower_refused, crate::proofs::Asked::upper_refused, crate::proofs::Asked::u_refused, crate::proofs::Asked::not_thicker, crate::proofs::Asked::all_pass))]
pub fn ask(u1: u32, u2: u32, y1: u32, y2: u32) -> Result<Limits, Refusal>
    ensures { result ≡ asked_of u1 u2 y1 y2 }
{
    if u2 < u1 || y2 < y1 {
        return Err(Refusal::LowerAboveUpper);
    }
    if WIDEST < y2 - y1 {
        return Err(Refusal::TooWide);
    }
    Kv100::new(y1)?;
    Kv100::new(y2)?;
    Kv40::new(u2)?;
    if u1 <= y2 {
        return Err(Refusal::Pair(index::Refusal::NotThicker));
    }
    Ok(Limits { u1, u2, y1, y2 })
}
