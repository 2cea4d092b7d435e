// The sheet operation: any bytes are a sheet, asked six questions; an accepted one gets the record of each of its pairs.
#![tactic(auto)]

pub mod layout;
mod questions;
mod refusal;
mod work;

ghost use Rattle.std.specs.Prelude.{◌≡◌};
ghost use Rattle.sheet.specs.Sheet.{sheet_answer_of, sheet_after};
ghost use Rattle.sheet.specs.Demand3.{Demand3};

pub use questions::Blocks;
pub use refusal::Refusal;
pub use work::pair_at;
use work::work_pairs;

// A pair, in thousandths of a mm²/s: the viscosity at 40 °C and the one at 100 °C.
#[derive(Clone, Copy)]
pub struct Pair {
    pub u: u32,
    pub y: u32,
}

// The sheet operation: any bytes of any length. The answer is the count of pairs, or the question that refuses the sheet.
pub fn work_sheet(sheet: &mut [u8]) -> Result<u32, Refusal>
    ensures answer { result ≡ sheet_answer_of sheet.old }
    ensures bytes { sheet.new ≡ sheet_after sheet.old }
    ensures demand3 { Demand3 sheet.old sheet.new }
{
    let blocks = Blocks::asked_of(sheet)?;
    work_pairs(sheet, blocks);
    Ok(blocks.count as u32)
}
