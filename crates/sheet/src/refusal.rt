// Document 01, 'A sheet': which question refuses a sheet, and by which number.
ghost use Rattle.std.specs.Prelude.{◌≡◌};
ghost use Rattle.sheet.specs.Numbers.{refusal_number};

// The question that a sheet fails; its number is that of document 01.
#[derive(Clone, Copy, Debug, PartialEq, Eq)]
pub enum Refusal {
    // "Has the buffer 16 bytes or more?"
    NoHeader = 11,
    // "Does the total equal the buffer's length?"
    TotalNotLength = 12,
    // "Is n at most 2,000?"
    TooManyPairs = 13,
    // "Does the pair block begin at 16 or later and end (offset + 8n) within the total?"
    PairsOutside = 14,
    // "The same for the result block (offset + 16n)?"
    ResultsOutside = 15,
    // "Do the blocks share no byte?"
    BlocksShareBytes = 16,
}

impl From<Refusal> for u8 {
    ghost from_gives = { λ refusal number. number ≡ refusal_number refusal };

    fn from(refusal: Refusal) -> u8 {
        refusal as u8
    }
}
