// Fills a buffer that has the size of the sheet; what stood in it does not matter.
ghost use Rattle.std.specs.Prelude.{◌≡◌, ◌+◌, ◌*◌, ◌<◌, ◌≤◌, length};
ghost use Rattle.answer_record.specs.Bytes.{stored};
ghost use Rattle.answer_record.specs.Record.{result_size};
ghost use Rattle.sheet.specs.Sheet.{pair_size};
ghost use Rattle.sheet_writer.specs.Questions.{numbers_of_pair};
ghost use Rattle.sheet_writer.specs.Writing.{pair_in, pair_bytes, unworked_result, with_pair, with_pairs, header_naming, sheet_for};
ghost use Rattle.sheet_writer.specs.Preconditions.{HeaderFits, PairsFit, SheetFits};

use crate::questions::NUMBERS_OF_PAIR;
use answer_record::layout::RESULT_SIZE;
use answer_record::store_number;
use sheet::layout::*;
use sheet::{Blocks, Pair};

// Stores the header of a sheet that is `total` bytes long.
fn store_header(sheet: &mut [u8], blocks: Blocks, total: usize)
    requires { HeaderFits (length sheet.old) blocks total }
    ensures { sheet.new ≡ stored sheet.old 0 (header_naming blocks total) }
{
    store_number(sheet, COUNT_AT, blocks.count as u32);
    store_number(sheet, PAIRS_AT, blocks.pairs as u32);
    store_number(sheet, RESULTS_AT, blocks.results as u32);
    store_number(sheet, TOTAL_AT, total as u32);
}

// Pair i of a row.
fn pair_in(row: &[u32], i: usize) -> Pair
    requires { numbers_of_pair * i + numbers_of_pair ≤ length row.now }
    ensures { result ≡ pair_in row.now i }
{
    let at = NUMBERS_OF_PAIR * i;
    Pair {
        u: row[at],
        y: row[at + 1],
    }
}

// Stores a pair as pair i of those that begin at `pairs`.
fn store_pair(sheet: &mut [u8], pairs: usize, i: usize, pair: Pair)
    requires { pairs + pair_size * i + pair_size ≤ length sheet.old }
    ensures { sheet.new ≡ stored sheet.old (pairs + pair_size * i) (pair_bytes pair) }
{
    let at = pairs + PAIR_SIZE * i;
    store_number(sheet, at, pair.u);
    store_number(sheet, at + Y_AT, pair.y);
}

// What each byte of a result holds until the sheet is worked.
const UNWORKED: u8 = 0;

// Makes result i of those that begin at `results` an unworked one.
#[tactic(auto, using(answer_record::proofs::Stores::copied))]
fn clear_result(sheet: &mut [u8], results: usize, i: usize)
    requires { results + result_size * i + result_size ≤ length sheet.old }
    ensures { sheet.new ≡ stored sheet.old (results + result_size * i) unworked_result }
{
    let at = results + RESULT_SIZE * i;
    sheet[at..at + RESULT_SIZE].fill(UNWORKED);
}

// Stores pair i of a row, and its unworked result.
fn store_one(sheet: &mut [u8], blocks: Blocks, row: &[u32], i: usize)
    requires { PairsFit (length sheet.old) blocks (length row.now) × (i < blocks.count) }
    ensures { sheet.new ≡ with_pair sheet.old blocks row.now i }
{
    store_pair(sheet, blocks.pairs, i, pair_in(row, i));
    clear_result(sheet, blocks.results, i);
}

// The same of pairs i and i + 1. What is read before anything is stored, and stored side by side, is compiled to moves of 16 bytes.
fn store_two(sheet: &mut [u8], blocks: Blocks, row: &[u32], i: usize)
    requires { PairsFit (length sheet.old) blocks (length row.now) × (i + 1 < blocks.count) }
    ensures { sheet.new ≡ with_pair (with_pair sheet.old blocks row.now i) blocks row.now (i + 1) }
{
    let first = pair_in(row, i);
    let second = pair_in(row, i + 1);
    store_pair(sheet, blocks.pairs, i, first);
    store_pair(sheet, blocks.pairs, i + 1, second);
    clear_result(sheet, blocks.results, i);
    clear_result(sheet, blocks.results, i + 1);
}

// Stores the pairs of a row and their unworked results, in one loop: a loop of zeros alone is compiled to a call of memset, and the archive that C links calls no
// function of the C library.
#[tactic(auto, using(crate::proofs::Pairs::none_stored))]
fn store_pairs(sheet: &mut [u8], blocks: Blocks, row: &[u32])
    requires { PairsFit (length sheet.old) blocks (length row.now) }
    ensures { sheet.new ≡ with_pairs sheet.old blocks row.now blocks.count }
{
    for i in 0..blocks.count / 2 {
        store_two(sheet, blocks, row, 2 * i);
    }
    if blocks.count % 2 != 0 {
        store_one(sheet, blocks, row, blocks.count - 1);
    }
}

// Fills all of it.
pub fn fill_sheet(row: &[u32], blocks: Blocks, sheet: &mut [u8])
    requires { SheetFits row.now blocks (length sheet.old) }
    ensures { sheet.new ≡ sheet_for row.now }
{
    let total = sheet.len();
    store_header(sheet, blocks, total);
    store_pairs(sheet, blocks, row);
}
