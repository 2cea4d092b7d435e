// Change request #108, the questions to a writing, asked in their order; the first no refuses it.
ghost use Rattle.std.specs.Prelude.{◌≡◌};
ghost use Rattle.sheet_writer.specs.Questions.{refusal_number, blocks_asked};

use answer_record::layout::RESULT_SIZE;
use sheet::Blocks;
use sheet::layout::{HEADER_SIZE, MOST_PAIRS, PAIR_SIZE};

// Why nothing is written; its number is that of the request.
#[derive(Clone, Copy, Debug, PartialEq, Eq)]
pub enum Refusal {
    // "51 an odd count of numbers in the row"
    OddCount = 51,
    // "52 more than 2,000 pairs"
    TooManyPairs = 52,
    // "53 the buffer not exactly 16 + 24n bytes"
    OtherSize = 53,
}

impl From<Refusal> for u8 {
    ghost from_gives = { λ refusal number. number ≡ refusal_number refusal };

    fn from(refusal: Refusal) -> u8 {
        refusal as u8
    }
}

// How many numbers of a row a pair is.
pub const NUMBERS_OF_PAIR: usize = 2;

// The blocks of the sheet of a row, in a buffer of `size` bytes, or the first question that the writing fails.
#[tactic(auto, using(crate::proofs::QuestionOrder::question_order))]
pub fn blocks_asked(row: &[u32], size: usize) -> Result<Blocks, Refusal>
    ensures { result ≡ blocks_asked row.now size }
{
    if row.len() % NUMBERS_OF_PAIR != 0 {
        return Err(Refusal::OddCount);
    }
    let count = row.len() / NUMBERS_OF_PAIR;
    if count > MOST_PAIRS {
        return Err(Refusal::TooManyPairs);
    }
    if size != HEADER_SIZE + (PAIR_SIZE + RESULT_SIZE) * count {
        return Err(Refusal::OtherSize);
    }
    Ok(Blocks {
        count,
        pairs: HEADER_SIZE,
        results: HEADER_SIZE + PAIR_SIZE * count,
    })
}
