// The work on an accepted sheet: each pair is read, answered, and its record written.
ghost use Rattle.std.specs.Prelude.{◌≡◌, ◌+◌, ◌*◌, ◌≤◌, length};
ghost use Rattle.answer_record.specs.Bytes.{stored};
ghost use Rattle.answer_record.specs.Record.{result_size, record_of};
ghost use Rattle.sheet.specs.Sheet.{pair_size, u_at, y_at, answer_at, records_of};
ghost use Rattle.sheet.specs.Preconditions.{PairWithin, BlocksWithin};

use crate::layout::*;
use crate::{Blocks, Pair};
use answer_record::{number_at, write_result};

// Pair i of those that begin at `pairs`. An inner function, for callers that know its bytes to be there. C lends the sheet as bytes: what stands where in
// them is document 01's, so that the offset goes beside them.
pub fn pair_at(sheet: &[u8], pairs: usize, i: usize) -> Pair
    requires { pairs + pair_size * i + pair_size ≤ length sheet.now }
    ensures { (result.u ≡ u_at sheet.now pairs i) × (result.y ≡ y_at sheet.now pairs i) }
{
    let at = pairs + PAIR_SIZE * i;
    let u = number_at(sheet, at);
    let y = number_at(sheet, at + Y_AT);
    Pair { u, y }
}

// Answers pair i, and writes its record as result i.
#[tactic(auto, using(crate::proofs::Records::part_worked))]
fn work_pair(sheet: &mut [u8], blocks: Blocks, i: usize)
    requires { PairWithin (length sheet.old) blocks i }
    ensures { sheet.new ≡ stored sheet.old (blocks.results + result_size * i) (record_of (answer_at sheet.old blocks.pairs i)) }
{
    let pair = pair_at(sheet, blocks.pairs, i);
    let answer = index::answer_pair(pair.u, pair.y);
    write_result(&mut sheet[blocks.results..], i, answer);
}

// Answers all pairs, and writes their records.
#[tactic(auto, using(crate::proofs::Records::none_stored, crate::proofs::Within::pair_within))]
pub fn work_pairs(sheet: &mut [u8], blocks: Blocks)
    requires { BlocksWithin (length sheet.old) blocks }
    ensures { sheet.new ≡ stored sheet.old blocks.results (records_of sheet.old blocks.pairs blocks.count) }
{
    for i in 0..blocks.count {
        work_pair(sheet, blocks, i);
    }
}
