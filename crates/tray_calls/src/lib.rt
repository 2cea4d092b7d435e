// The calls with a tray as C has them: numbers and lent memories. Each lent memory is first asked for its size; a refused call leaves all of them as they are.
// A crate of its own below the C calls, so that its must-fail edits do not prove the pair and the sheet again. C reads what is answered: refusals are numbers here.
#![tactic(auto)]

ghost use Rattle.std.specs.Prelude.{◌≡◌};
ghost use Rattle.index.specs.ChosenAnswer.{answer_of};
ghost use Rattle.answer_record.specs.Record.{record_of};
ghost use Rattle.tray.specs.Tray.{number_of_refusal, said_by};
ghost use Rattle.tray_calls.specs.TrayCalls.{place_from, state_row, put_number, tray_put, record_put, take_number, tray_taken, pair_taken, record_taken, summary_number, summary_after};

use answer_record::layout::{INDEX_AT, LOWER_AT, METHOD_AT, RESULT_SIZE, UPPER_AT};
use answer_record::{number_at, write_result};
use index::answer::ANSWERED;
use summary_tray::{Place, Refusal, Summary, TRAY_SIZE};

// What is answered where a lent memory has not its size, and where no question refuses.
const NOT_ITS_SIZE: u32 = 5;

const DONE: u32 = 0;

// How many numbers a pair is: u, then y.
const PAIR_SIZE: usize = 2;

// How many numbers a summary is: how many samples are held, the lowest and the highest index, the sum of indices, and how many are by A, by B settled and by
// B near.
const SUMMARY_SIZE: usize = 7;

// The place of a sample whose answer stands in a record.
#[tactic(auto, unfolding(crate::specs::TrayCalls::place_from))]
fn place_from(filled: &[u8; RESULT_SIZE], number: u32, u: u32, y: u32) -> Place
    ensures { result ≡ place_from filled.now number u y }
{
    Place {
        method: u32::from(filled[METHOD_AT]),
        number,
        u,
        y,
        index: number_at(filled, INDEX_AT),
        lower: number_at(filled, LOWER_AT),
        upper: number_at(filled, UPPER_AT),
    }
}

// The number of a refusal as C reads it. Not a `From`, nor is `state_row`: both types of each are of other crates.
fn number_of(refusal: Refusal) -> u32
    ensures { result ≡ number_of_refusal refusal }
{
    u32::from(u8::from(refusal))
}

// What the pair's own questions said, by the number that stands in its record.
fn said_by(number: u8) -> Result<(), u8>
    ensures { result ≡ said_by number }
{
    if number == ANSWERED {
        Ok(())
    } else {
        Err(number)
    }
}

// Puts a sample in whose pair's answer stands in a record, and gives that record. An inner function, for callers that have asked the pair: what it stores and
// gives is read back from that record, so that one function fills it, whoever asks, and the pair operation is not laid out a third time. The number, u, y and
// what is lent are parameters here and below as C hands them over: a type around them would be made for one call and taken apart at once.
pub fn put_answered(
    tray: &mut [u32],
    number: u32,
    u: u32,
    y: u32,
    filled: &[u8; RESULT_SIZE],
    record: &mut [u8],
) -> u32
    requires { filled.now ≡ record_of (answer_of u y) }
    ensures number { result ≡ put_number tray.old «record».old number u y }
    ensures numbers { tray.new ≡ tray_put tray.old «record».old number u y }
    ensures bytes { «record».new ≡ record_put tray.old «record».old number u y }
{
    if record.len() != RESULT_SIZE {
        return NOT_ITS_SIZE;
    }
    let Some(tray) = tray.as_mut_array::<TRAY_SIZE>() else {
        return NOT_ITS_SIZE;
    };
    let pair = said_by(filled[0]);
    let place = place_from(filled, number, u, y);
    match summary_tray::hold(tray, number, pair, place) {
        Err(refused) => u32::from(refused),
        Ok(()) => {
            record.copy_from_slice(filled);
            DONE
        }
    }
}

// Takes a sample out: its pair, and its answer as one record.
#[tactic(auto, using(answer_record::proofs::Stores::stored_whole, answer_record::proofs::Records::length_record), unfolding(crate::specs::TrayCalls::take_number, crate::specs::TrayCalls::tray_taken, crate::specs::TrayCalls::pair_taken, crate::specs::TrayCalls::record_taken))]
pub fn take_sample(tray: &mut [u32], number: u32, pair: &mut [u32], record: &mut [u8]) -> u32
    ensures number { result ≡ take_number tray.old pair.old «record».old number }
    ensures numbers { tray.new ≡ tray_taken tray.old pair.old «record».old number }
    ensures pair { pair.new ≡ pair_taken tray.old pair.old «record».old number }
    ensures bytes { «record».new ≡ record_taken tray.old pair.old «record».old number }
{
    if pair.len() != PAIR_SIZE {
        return NOT_ITS_SIZE;
    }
    if record.len() != RESULT_SIZE {
        return NOT_ITS_SIZE;
    }
    match summary_tray::take(tray, number) {
        Err(refusal) => number_of(refusal),
        Ok(sample) => {
            pair.copy_from_slice(&[sample.u, sample.y]);
            write_result(record, 0, sample.answer);
            DONE
        }
    }
}

// The numbers of a state; all zeros where no sample is held.
fn state_row(state: Option<Summary>) -> [i64; SUMMARY_SIZE]
    ensures { result ≡ state_row state }
{
    let Some(t) = state else {
        return [0; SUMMARY_SIZE];
    };
    let held = i64::from(t.a) + i64::from(t.settled) + i64::from(t.near);
    [
        held,
        t.lowest,
        t.highest,
        t.sum,
        i64::from(t.a),
        i64::from(t.settled),
        i64::from(t.near),
    ]
}

// The summary that a tray keeps as a row.
#[tactic(auto, unfolding(crate::specs::TrayCalls::summary_number, crate::specs::TrayCalls::summary_after))]
pub fn fill_summary(tray: &[u32], row: &mut [i64]) -> u32
    ensures number { result ≡ summary_number tray.now row.old }
    ensures numbers { row.new ≡ summary_after tray.now row.old }
{
    let Some(row) = row.as_mut_array::<SUMMARY_SIZE>() else {
        return NOT_ITS_SIZE;
    };
    match summary_tray::summary(tray) {
        Err(refusal) => number_of(refusal),
        Ok(state) => {
            *row = state_row(state);
            DONE
        }
    }
}
