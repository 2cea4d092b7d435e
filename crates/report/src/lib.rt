// The text of a sheet: which bytes are printed for it?
#![tactic(auto)]

ghost use Rattle.std.specs.Prelude.{◌≡◌, [], ◌++◌, ◌≤◌, length};
ghost use Rattle.sheet.specs.Sheet.{count_of, named_blocks};
ghost use Rattle.sheet.specs.Demand3.{Demand3};
ghost use Rattle.text_lines.specs.Lines.{first_line};
ghost use Rattle.report.specs.Text.{most_input, printed, input_after};
ghost use Rattle.report.specs.FromRecords.{lines_at};
ghost use Rattle.report.specs.Preconditions.{Readable};

use arrayvec::ArrayString;
use sheet::layout::MOST_PAIRS;
use sheet::{Blocks, Refusal};
use text_lines::{FIRST_LINE_WIDTH, LINE_WIDTH};

// The longest text: its first line, and a line for each pair.
pub const TEXT_SIZE: usize = FIRST_LINE_WIDTH + LINE_WIDTH * MOST_PAIRS;

// What is printed, as a text that lies in the value itself.
pub type Text = ArrayString<TEXT_SIZE>;

// The longest input that is worked; longer input is refused by TOO_LONG, document 01's number 12.
pub const MOST_INPUT: usize = 65_536;

// What a program reads its input into, one byte more: where that is filled, the input is longer.
pub const INPUT_SIZE: usize = MOST_INPUT + 1;

const TOO_LONG: Refusal = Refusal::TotalNotLength;

// Puts the text of a worked sheet.
#[tactic(auto, using(crate::proofs::Lines::one_more), unfolding(crate::specs::FromRecords::lines_at))]
fn put_pairs(text: &mut Text, sheet: &[u8])
    requires empty { text.old.bytes ≡ [] }
    requires readable { Readable sheet.now }
    ensures { text.new.bytes ≡ first_line (count_of sheet.now) ++ lines_at sheet.now (named_blocks sheet.now) (count_of sheet.now) }
{
    let blocks = Blocks::named_in(sheet);
    text.push_str(&text_lines::first_line(blocks.count as u32));
    for i in 0..blocks.count {
        text_lines::push_line(text, sheet, blocks, i);
    }
}

// Works a sheet and puts what is printed for it, in place of what the lent text holds: any bytes of any length.
#[tactic(auto, using(crate::proofs::Worked::printing))]
pub fn print_sheet(sheet: &mut [u8], text: &mut Text)
    ensures bytes { text.new.bytes ≡ printed sheet.old }
    ensures sheet { sheet.new ≡ input_after sheet.old }
    ensures demand3 { length sheet.old ≤ most_input → Demand3 sheet.old sheet.new }
{
    text.clear();
    if sheet.len() > MOST_INPUT {
        text.push_str(&text_lines::refused_line(u8::from(TOO_LONG)));
        return;
    }
    match sheet::work_sheet(sheet) {
        Ok(_) => put_pairs(text, sheet),
        Err(refusal) => text.push_str(&text_lines::refused_line(u8::from(refusal))),
    }
}
