// The fields of a record, and how they are laid out.
ghost use Rattle.std.specs.Prelude.{◌≡◌, ◌+◌, ◌≤◌, length};
ghost use Rattle.index.specs.Answer.{NumberOf};
ghost use Rattle.answer_record.specs.Bytes.{stored};
ghost use Rattle.answer_record.specs.Record.{result_size, refused_fields, numbered_fields, laid_out};

use crate::bytes::{store_number, twos_complement};
use crate::layout::*;
use index::Index;
use index::answer::{ANSWERED, METHOD_A, METHOD_REFUSED, method_of};

// The fields: the pair's number, the method, the index as the 32-bit number that a record has, p and P. What does not apply is zero. The number and
// the method stay numbers: they are the bytes that document 01 lays out.
#[derive(Clone, Copy, Debug, PartialEq, Eq)]
pub struct Record {
    pub number: u8,
    pub method: u8,
    pub index: u32,
    pub lower: u32,
    pub upper: u32,
}

impl Record {
    // "What does not apply is zero."
    const ZEROS: Record = Record {
        number: ANSWERED,
        method: METHOD_REFUSED,
        index: 0,
        lower: 0,
        upper: 0,
    };

    // Of a refused pair: its number, as byte 0 is to hold it, and zeros.
    pub fn refused(number: u8) -> Record
        ensures { result ≡ refused_fields number }
    {
        Record {
            number,
            ..Record::ZEROS
        }
    }
}

// Of an answer, procedure by procedure; a refused one may be refused by any number of one byte.
impl<R: Copy + Into<u8>> From<Result<Index, R>> for Record {
    ghost from_gives = { λ answer fields. NumberOf R.converts answer fields.number × (fields ≡ numbered_fields fields.number answer) };

    fn from(answer: Result<Index, R>) -> Record {
        match answer {
            Err(refusal) => Record::refused(refusal.into()),
            Ok(Index::A(index)) => Record {
                method: METHOD_A,
                index: twos_complement(index),
                ..Record::ZEROS
            },
            Ok(Index::B(b)) => Record {
                method: method_of(answer),
                index: b.index,
                lower: b.lower,
                upper: b.upper,
                ..Record::ZEROS
            },
        }
    }
}

// Stores the fields of a record, which begins at `at`. An inner function, for callers that know its bytes to be there: those of the sheet or the record that C
// lends, in which document 01 says where each field stands.
pub fn store_record(to: &mut [u8], at: usize, fields: Record)
    requires { at + result_size ≤ length to.old }
    ensures { to.new ≡ stored to.old at (laid_out fields) }
{
    // Byte by byte: a copy of these four as an array goes through the stack. Compiled alone, with tests of the size, it is 32 instructions, this 20, and a
    // sheet's pair above H has none to spare: it takes 0.80 of what plain C takes, and 0.8 is its bar (docs/PERFORMANCE.md).
    to[at] = fields.number;
    to[at + METHOD_AT] = fields.method;
    to[at + 2] = 0;
    to[at + 3] = 0;
    store_number(to, at + INDEX_AT, fields.index);
    store_number(to, at + LOWER_AT, fields.lower);
    store_number(to, at + UPPER_AT, fields.upper);
}
