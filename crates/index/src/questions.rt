// Questions 1 to 4.
ghost use Rattle.std.specs.Prelude.{◌≡◌};
ghost use Rattle.index.specs.Questions.{asked_of};

use reference::{Kv40, Kv100, Refusal};

// The two viscosities of a pair, each within its limits.
#[derive(Clone, Copy, Debug, PartialEq, Eq)]
pub struct Viscosities {
    pub u: Kv40,
    pub y: Kv100,
}

// Questions 1 to 4: the constructors of the two viscosities ask the first three.
#[tactic(auto, using(crate::proofs::Cases::refused_at_100, crate::proofs::Cases::refused_at_40, crate::proofs::Cases::not_thicker, crate::proofs::Cases::thicker))]
pub fn ask(u: u32, y: u32) -> Result<Viscosities, Refusal>
    ensures { result ≡ asked_of u y }
{
    let at100 = Kv100::new(y)?;
    let at40 = Kv40::new(u)?;
    if u <= y {
        return Err(Refusal::NotThicker);
    }
    Ok(Viscosities { u: at40, y: at100 })
}
