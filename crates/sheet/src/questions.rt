// Document 01, 'A sheet': the six questions to a sheet, asked in their order; the first no refuses it.
ghost use Rattle.std.specs.Prelude.{◌≡◌, ◌<◌, ◌≤◌, length};
ghost use Rattle.laws.specs.Bits.{span32};
ghost use Rattle.sheet.specs.Sheet.{header_size, stands_within, share_no_byte, named_blocks, blocks_of};

use crate::Refusal;
use crate::layout::*;
use answer_record::layout::RESULT_SIZE;
use answer_record::number_at;

// The bytes from `begin` up to but not including `end`.
#[derive(Clone, Copy)]
struct Span {
    begin: usize,
    end: usize,
}

impl Span {
    // Does it begin after the header and end within the total?
    #[tactic(auto, unfolding(crate::specs::Sheet::stands_within))]
    fn stands_within(self, total: usize) -> bool
        ensures { result ≡ stands_within self.begin self.end total }
    {
        HEADER_SIZE <= self.begin && self.end <= total
    }

    // Do the two share no byte?
    #[tactic(auto, unfolding(crate::specs::Sheet::share_no_byte))]
    fn shares_no_byte(self, other: Span) -> bool
        ensures { result ≡ share_no_byte self.begin self.end other.begin other.end }
    {
        self.end <= other.begin || other.end <= self.begin
    }
}

// The blocks of a sheet, as its header names them: how many pairs it has, and the offsets at which the pairs and the results begin.
#[derive(Clone, Copy, Debug, PartialEq, Eq)]
pub struct Blocks {
    pub count: usize,
    pub pairs: usize,
    pub results: usize,
}

impl Blocks {
    // The blocks that the header names, whatever the questions say of them.
    pub fn named_in(sheet: &[u8]) -> Blocks
        requires { header_size ≤ length sheet.now }
        ensures value { result ≡ named_blocks sheet.now }
        ensures in_32_bits { (result.count < span32) × (result.pairs < span32) × (result.results < span32) }
    {
        Blocks {
            count: number_at(sheet, COUNT_AT) as usize,
            pairs: number_at(sheet, PAIRS_AT) as usize,
            results: number_at(sheet, RESULTS_AT) as usize,
        }
    }

    // The blocks of a sheet that fails no question, or the first question that it fails.
    #[tactic(auto, using(crate::proofs::QuestionOrder::question_order))]
    pub fn asked_of(sheet: &[u8]) -> Result<Blocks, Refusal>
        ensures { result ≡ blocks_of sheet.now }
    {
        if sheet.len() < HEADER_SIZE {
            return Err(Refusal::NoHeader);
        }
        let total = number_at(sheet, TOTAL_AT) as usize;
        if total != sheet.len() {
            return Err(Refusal::TotalNotLength);
        }
        let blocks = Blocks::named_in(sheet);
        if blocks.count > MOST_PAIRS {
            return Err(Refusal::TooManyPairs);
        }
        let pairs = Span {
            begin: blocks.pairs,
            end: blocks.pairs + PAIR_SIZE * blocks.count,
        };
        if !pairs.stands_within(total) {
            return Err(Refusal::PairsOutside);
        }
        let results = Span {
            begin: blocks.results,
            end: blocks.results + RESULT_SIZE * blocks.count,
        };
        if !results.stands_within(total) {
            return Err(Refusal::ResultsOutside);
        }
        if !pairs.shares_no_byte(results) {
            return Err(Refusal::BlocksShareBytes);
        }
        Ok(blocks)
    }
}
