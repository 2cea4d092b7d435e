// Which 16 bytes are an answer? The record of an answer to a pair: a result of a sheet, and what the pair call in C fills.
#![tactic(auto)]

mod bytes;
pub mod layout;
mod store;

ghost use Rattle.std.specs.Prelude.{◌≡◌, ℕ, ◌+◌, ◌*◌, ◌≤◌, length};
ghost use Rattle.index.specs.Answer.{NumberOf};
ghost use Rattle.answer_record.specs.Bytes.{stored};
ghost use Rattle.answer_record.specs.Record.{result_size, numbered_record};

pub use bytes::{number_at, store_number, twos_complement};
use index::Index;
use layout::RESULT_SIZE;
pub use store::{Record, store_record};

// Writes the record of an answer as result i of the part of a sheet that starts at the result offset. An inner function, for callers
// that know the part to be long enough. Document 01 names the `let .. else`, the refusal writing its number: `Record::from` alone would do.
pub fn write_result<R: Copy + Into<u8>>(results: &mut [u8], i: usize, answer: Result<Index, R>)
    requires { result_size * i + result_size ≤ length results.old }
    ensures { (number : ℕ) × NumberOf R.converts answer number × (results.new ≡ stored results.old (result_size * i) (numbered_record number answer)) }
{
    let at = RESULT_SIZE * i;
    let Err(refusal) = answer else {
        store_record(results, at, Record::from(answer));
        return;
    };
    store_record(results, at, Record::refused(refusal.into()));
}
