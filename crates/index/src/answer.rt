// The answer to a pair, and what it says by its case.
ghost use Rattle.std.specs.Prelude.{◌≡◌, ◌<◌};
ghost use Rattle.std.specs.Int.Signed.{mag};
ghost use Rattle.laws.specs.Bits.{span32};
ghost use Rattle.index.specs.Answer.{NumberOf, method_of, method_of_mark, index_of};

use reference::Refusal;
use shown_index::{ByB, Mark};

// An index with the procedure that gave it.
#[derive(Clone, Copy, Debug, PartialEq, Eq)]
pub enum Index {
    A(i32),
    B(ByB),
}

// The answer to a pair: its index, or refused by the first question that it fails.
pub type Answer = Result<Index, Refusal>;

// The number of an answered pair.
pub const ANSWERED: u8 = 0;

// The methods. They are bytes of a result (document 01, 'A sheet': "byte 1 the method"), which C reads; in Rattle a method is a case of the answer.
pub const METHOD_REFUSED: u8 = 0;

pub const METHOD_A: u8 = 1;

pub const METHOD_B_SETTLED: u8 = 2;

pub const METHOD_B_NEAR: u8 = 3;

// The number of the question that refused the pair, 0 where it is answered: byte 0 of its result. An answer may be refused by other questions too, as those of
// a tray are: whatever gives a number of one byte, or is one, may stand for the refusal here and below.
pub fn number_of<R: Copy + Into<u8>>(answer: Result<Index, R>) -> u8
    ensures { NumberOf R.converts answer result }
{
    match answer {
        Ok(_) => ANSWERED,
        Err(refusal) => refusal.into(),
    }
}

// The method of procedure B under its mark.
fn method_of_mark(mark: Mark) -> u8
    ensures { result ≡ method_of_mark mark }
{
    match mark {
        Mark::Settled => METHOD_B_SETTLED,
        Mark::Near => METHOD_B_NEAR,
    }
}

// The method: 0 refused, 1 A, 2 B settled, 3 B near.
pub fn method_of<R: Copy>(answer: Result<Index, R>) -> u8
    ensures { result ≡ method_of answer }
{
    match answer {
        Err(_) => METHOD_REFUSED,
        Ok(Index::A(_)) => METHOD_A,
        Ok(Index::B(b)) => method_of_mark(b.mark),
    }
}

// The index; 64 bits hold it whatever the answer is. It is 0 where the pair is refused, as in its result ("What does not apply is zero"), so that sums need
// no case for it.
pub fn index_of<R: Copy>(answer: Result<Index, R>) -> i64
    ensures value { result ≡ index_of answer }
    ensures bound { mag result < span32 }
{
    match answer {
        Err(_) => 0,
        Ok(Index::A(index)) => i64::from(index),
        Ok(Index::B(b)) => i64::from(b.index),
    }
}
