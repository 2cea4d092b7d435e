// The lines of a sheet's text: which bytes are its first line, the line of a refused sheet, the line of a pair? As in the crate `text_fields`, each
// line comes as a text of its own; that of a pair also behind a text that the caller lends (`push_line`), where a whole sheet is printed. Those that read a sheet are
// inner functions, for callers that know the bytes that they read to be there.
#![tactic(auto)]

ghost use Rattle.std.specs.Prelude.{◌≡◌, ◌+◌, ◌≤◌, ◌++◌, length};
ghost use Rattle.answer_record.specs.Record.{result_size};
ghost use Rattle.sheet.specs.Sheet.{most_pairs};
ghost use Rattle.sheet.specs.Preconditions.{PairWithin};
ghost use Rattle.text_fields.specs.Fields.{ascii, decimal, signed_decimal, worded};
ghost use Rattle.text_lines.specs.declared.TheConstants.{OUTCOME_WIDTH, LINE_WIDTH};
ghost use Rattle.text_lines.specs.Lines.{first_line, refused_line};
ghost use Rattle.text_lines.specs.FromRecord.{outcome_by, outcome_at, line_at};

use answer_record::layout::{INDEX_AT, METHOD_AT, RESULT_SIZE};
use arrayvec::ArrayString;
use index::answer::{METHOD_A, METHOD_B_SETTLED, METHOD_REFUSED};
use sheet::Blocks;
use text_fields::{
    INDEX_WIDTH, SPACE, VISCOSITY_WIDTH, decimal, ended, push_decimal, push_end,
    push_signed_decimal, push_viscosity, worded,
};

// The greatest widths, in bytes: the first line is "pairs 2000" and its end, the line of a refused sheet "sheet refused 255" and its end. The outcome of a
// pair is a method of at most 2 (B~), a space and an index; "refused" and a number of one byte are shorter. Its line is two viscosities and the outcome,
// the spaces between them and the line's end.
pub const FIRST_LINE_WIDTH: usize = 11;

pub const REFUSED_LINE_WIDTH: usize = 18;

const OUTCOME_WIDTH: usize = 2 + 1 + INDEX_WIDTH;

pub const LINE_WIDTH: usize = VISCOSITY_WIDTH + 1 + VISCOSITY_WIDTH + 1 + OUTCOME_WIDTH + 1;

// The first line: "pairs" and n.
#[tactic(auto, using(crate::proofs::Widths::digits_of_count), unfolding(crate::specs::Lines::first_line))]
pub fn first_line(n: u32) -> ArrayString<FIRST_LINE_WIDTH>
    requires { n ≤ most_pairs }
    ensures { result.bytes ≡ first_line n }
{
    ended(worded("pairs", &decimal(n)))
}

// The line of a refused sheet: "sheet refused" and its number, any number of one byte: a `Refusal` would be narrower, and ask more of the caller.
#[tactic(auto, using(crate::proofs::Widths::digits_of_byte), unfolding(crate::specs::Lines::refused_line))]
pub fn refused_line(number: u8) -> ArrayString<REFUSED_LINE_WIDTH>
    ensures { result.bytes ≡ refused_line number }
{
    ended(worded("sheet refused", &decimal(u32::from(number))))
}

// A word, a space and an index.
#[inline(always)]
fn push_answered<const N: usize>(text: &mut ArrayString<N>, word: &str, index: i32)
    requires short { length word.now ≤ 2 }
    requires room { length text.old.bytes + OUTCOME_WIDTH ≤ N }
    ensures bytes { text.new.bytes ≡ text.old.bytes ++ worded word.now (signed_decimal index) }
    ensures within { length text.new.bytes ≤ length text.old.bytes + OUTCOME_WIDTH }
{
    text.push_str(word);
    text.push_str(SPACE);
    push_signed_decimal(text, index);
}

// "refused" and the number of a refused pair.
#[tactic(auto, using(crate::proofs::Widths::digits_of_byte))]
#[inline(always)]
fn push_refused<const N: usize>(text: &mut ArrayString<N>, number: u8)
    requires { length text.old.bytes + OUTCOME_WIDTH ≤ N }
    ensures bytes { text.new.bytes ≡ text.old.bytes ++ worded (ascii "refused") (decimal number) }
    ensures within { length text.new.bytes ≤ length text.old.bytes + OUTCOME_WIDTH }
{
    text.push_str("refused");
    text.push_str(SPACE);
    push_decimal(text, u32::from(number));
}

// The outcome of a pair, by the fields of its record. The method is a byte of the sheet's format, which may hold any number; one that is none of the
// other three is B near.
#[inline(always)]
fn push_outcome_by<const N: usize>(text: &mut ArrayString<N>, number: u8, method: u8, index: i32)
    requires { length text.old.bytes + OUTCOME_WIDTH ≤ N }
    ensures bytes { text.new.bytes ≡ text.old.bytes ++ outcome_by number method index }
    ensures within { length text.new.bytes ≤ length text.old.bytes + OUTCOME_WIDTH }
{
    match method {
        METHOD_REFUSED => push_refused(text, number),
        METHOD_A => push_answered(text, "A", index),
        METHOD_B_SETTLED => push_answered(text, "B", index),
        _ => push_answered(text, "B~", index),
    }
}

// The outcome of the pair whose record begins at `from`: the sheet is bytes that document 01 lays out, so that the offset goes beside them.
#[inline(always)]
fn push_outcome_at<const N: usize>(text: &mut ArrayString<N>, sheet: &[u8], from: usize)
    requires room { length text.old.bytes + OUTCOME_WIDTH ≤ N }
    requires record_within { from + result_size ≤ length sheet.now }
    ensures bytes { text.new.bytes ≡ text.old.bytes ++ outcome_at sheet.now from }
    ensures within { length text.new.bytes ≤ length text.old.bytes + OUTCOME_WIDTH }
{
    let index = answer_record::number_at(sheet, from + INDEX_AT).cast_signed();
    push_outcome_by(text, sheet[from], sheet[from + METHOD_AT], index);
}

// The line of pair i and its record, of a sheet's blocks.
#[tactic(auto, unfolding(crate::specs::Lines::printed_line))]
#[inline(always)]
pub fn push_line<const N: usize>(text: &mut ArrayString<N>, sheet: &[u8], blocks: Blocks, i: usize)
    requires room { length text.old.bytes + LINE_WIDTH ≤ N }
    requires pair_within { PairWithin (length sheet.now) blocks i }
    ensures bytes { text.new.bytes ≡ text.old.bytes ++ line_at sheet.now blocks i }
    ensures within { length text.new.bytes ≤ length text.old.bytes + LINE_WIDTH }
{
    let pair = sheet::pair_at(sheet, blocks.pairs, i);
    push_viscosity(text, pair.u);
    text.push_str(SPACE);
    push_viscosity(text, pair.y);
    text.push_str(SPACE);
    push_outcome_at(text, sheet, blocks.results + RESULT_SIZE * i);
    push_end(text);
}

// The same as a text of its own.
pub fn line_at(sheet: &[u8], blocks: Blocks, i: usize) -> ArrayString<LINE_WIDTH>
    requires { PairWithin (length sheet.now) blocks i }
    ensures { result.bytes ≡ line_at sheet.now blocks i }
{
    let mut line = ArrayString::new();
    push_line(&mut line, sheet, blocks, i);
    line
}
