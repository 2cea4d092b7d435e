// Why a call is refused, and the number that says so.
ghost use Rattle.std.specs.Prelude.{◌≡◌};
ghost use Rattle.tray.specs.declared.refusal.Refusal.TheVariants.{Pair};
ghost use Rattle.tray.specs.Tray.{number_of_refusal};

// The question that refuses a call: the size of the lent memory; one of the pair's own; whether the number is held already; whether a place is
// free; whether the number is held.
#[derive(Clone, Copy, Debug, PartialEq, Eq)]
pub enum Refusal {
    NotATray,
    Pair(index::Refusal),
    NumberHeld,
    TrayFull,
    NumberNotHeld,
}

impl From<index::Refusal> for Refusal {
    ghost from_gives = { λ question refusal. refusal ≡ Pair question };

    fn from(question: index::Refusal) -> Refusal {
        Refusal::Pair(question)
    }
}

// Its number.
impl From<Refusal> for u8 {
    ghost from_gives = { λ refusal number. number ≡ number_of_refusal refusal };

    fn from(refusal: Refusal) -> u8 {
        match refusal {
            Refusal::NotATray => 5,
            Refusal::Pair(question) => u8::from(question),
            Refusal::NumberHeld => 31,
            Refusal::TrayFull => 32,
            Refusal::NumberNotHeld => 33,
        }
    }
}
