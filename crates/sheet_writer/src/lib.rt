// Writes a sheet of pairs: the header, the pair block behind it, the result block behind that, all zeros. Module `questions` asks the row and the buffer;
// `fill` fills a buffer that fits.
#![tactic(auto)]

mod fill;
mod questions;

ghost use Rattle.std.specs.Prelude.{◌≡◌, length};
ghost use Rattle.sheet_writer.specs.Questions.{writing_number_of};
ghost use Rattle.sheet_writer.specs.Writing.{writing_answer, buffer_after};
ghost use Rattle.sheet_writer.specs.RightWriting.{RightWriting};

use fill::fill_sheet;
pub use questions::Refusal;
use questions::blocks_asked;

// The writing operation: any numbers are a row, u then y of each pair, and any bytes a buffer.
pub fn write_sheet(row: &[u32], buffer: &mut [u8]) -> Result<(), Refusal>
    ensures answer { result ≡ writing_answer row.now (length buffer.old) }
    ensures bytes { buffer.new ≡ buffer_after row.now buffer.old }
    ensures right { RightWriting row.now buffer.old buffer.new (writing_number_of result) }
{
    let blocks = blocks_asked(row, buffer.len())?;
    fill_sheet(row, blocks, buffer);
    Ok(())
}
