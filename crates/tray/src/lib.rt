// A tray that fills and empties, in memory that the caller lends: samples are put in and taken out under their numbers, and the state of the tray is asked
// for. Each call answers for any numbers in that memory, and says what stands in it afterwards; over every list of calls from an empty tray,
// samples held are samples taken in less samples taken out (specs/EveryListOfCalls.antt). Module `state` walks over what is held; module `refusal` says
// why a call is refused. Crate summary_tray keeps beside these places what the walk gives.
#![tactic(auto)]

pub mod refusal;
pub mod state;

ghost use Rattle.std.specs.Prelude.{◌≡◌};
ghost use Rattle.tray.specs.Tray.{as_put, HoldAnswer, tray_holding_unless, put_answer, tray_after_put, take_answer, tray_after_take};

use index::{Answer, Index};
pub use index_summary::Summary;
pub use refusal::Refusal;
pub use state::summary;
use tray_places::{free, free_place, place_of_number, places_in, store_place};
pub use tray_places::{Place, Sample, TRAY_SIZE};

// Stores a place under its number, unless a question refuses it: `pair` is what the pair's own questions said, and their refusal comes first. A refusal is told as
// a value of `R`, so that a caller that has a pair's number alone hands over that number: it is what C reads.
pub fn hold<R: From<Refusal> + Drop>(
    tray: &mut [u32; TRAY_SIZE],
    number: u32,
    pair: Result<(), R>,
    place: Place,
) -> Result<(), R>
    ensures answer { HoldAnswer R.from_gives tray.old number pair result }
    ensures numbers { tray.new ≡ tray_holding_unless tray.old number pair place }
{
    pair?;
    if place_of_number(tray, number).is_some() {
        return Err(R::from(Refusal::NumberHeld));
    }
    let i = free_place(tray).ok_or(Refusal::TrayFull)?;
    store_place(tray, i, place);
    Ok(())
}

// A pair's answer as a put gives it: its refusal is one of the pair's own questions.
fn as_put(answer: Answer) -> Result<Index, Refusal>
    ensures { result ≡ as_put answer }
{
    Ok(answer?)
}

// Puts a sample in: the pair's index. The number, u and y are plain numbers until the questions are asked: a type around them would be no plainer, since it would
// be made for one call and taken apart at once.
pub fn put(tray: &mut [u32], number: u32, u: u32, y: u32) -> Result<Index, Refusal>
    ensures answer { result ≡ put_answer tray.old number u y }
    ensures numbers { tray.new ≡ tray_after_put tray.old number u y }
{
    let Some(tray) = tray.as_mut_array::<TRAY_SIZE>() else {
        return Err(Refusal::NotATray);
    };
    let answer = index::answer_pair(u, y);
    let place = Place::from(Sample {
        number,
        u,
        y,
        answer,
    });
    let answer = as_put(answer);
    hold(tray, number, answer.and(Ok(())), place)?;
    answer
}

// Takes a sample out.
pub fn take(tray: &mut [u32], number: u32) -> Result<Sample, Refusal>
    ensures answer { result ≡ take_answer tray.old number }
    ensures numbers { tray.new ≡ tray_after_take tray.old number }
{
    let Some(tray) = tray.as_mut_array::<TRAY_SIZE>() else {
        return Err(Refusal::NotATray);
    };
    let i = place_of_number(tray, number).ok_or(Refusal::NumberNotHeld)?;
    let place = Place::from(&places_in(tray)[i]);
    free(tray, i);
    Ok(Sample::from(place))
}
