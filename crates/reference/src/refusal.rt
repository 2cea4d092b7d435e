// Which of the four questions to a pair refuses it: "asked in this order; the first no gives its number" (document 01, 'Questions to a pair'). The
// constructors of the two viscosities ask the first three; crate index, where both viscosities are at hand, asks the fourth.
ghost use Rattle.std.specs.Prelude.{◌≡◌};
ghost use Rattle.reference.specs.Refusal.{number_of_refusal};

#[derive(Clone, Copy, Debug, PartialEq, Eq)]
pub enum Refusal {
    // "Is y at least 2,000? No: 1."
    ThinAt100 = 1,
    // "Is y at most 500,000? No: 2."
    ThickAt100 = 2,
    // "Is u at most 1,000,000,000? No: 3."
    ThickAt40 = 3,
    // "Is u greater than y? No: 4."
    NotThicker = 4,
}

impl From<Refusal> for u8 {
    ghost from_gives = { λ refusal number. number ≡ number_of_refusal refusal };

    fn from(refusal: Refusal) -> u8 {
        refusal as u8
    }
}
