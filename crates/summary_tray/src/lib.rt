// The tray that keeps its summary: 521 numbers that the caller lends, first the places of the samples (crate tray) and then nine numbers that say what the samples
// come to (crate summary_block). Putting in and taking out keep the summary; asking for the state reads the nine numbers and no sample. Over every list of
// calls from an empty tray it is what a walk over the samples held gives (specs/KeptSummary.antt). Module `keep` is how it is kept.
#![tactic(auto)]

mod keep;

ghost use Rattle.std.specs.Prelude.{◌≡◌};
ghost use Rattle.summary_tray.specs.SummaryTray.{HoldAnswer, tray_holding_unless, put_answer, tray_after_put, take_answer, tray_after_take, state_of};

use index::Index;
use keep::{keep_with, keep_without, kept};
use summary_block::BLOCK_LENGTH;
use tray::state::state_with;
pub use tray::{Place, Refusal, Sample, Summary};

// How many numbers the places are, and how many the tray.
const PLACES_SIZE: usize = tray::TRAY_SIZE;

pub const TRAY_SIZE: usize = PLACES_SIZE + BLOCK_LENGTH;

// Stores a place under its number, unless a question refuses it, as `tray::hold` does, and keeps the summary.
pub fn hold<R: From<Refusal> + Drop>(
    tray: &mut [u32; TRAY_SIZE],
    number: u32,
    pair: Result<(), R>,
    place: Place,
) -> Result<(), R>
    ensures answer { HoldAnswer R.from_gives tray.old number pair result }
    ensures numbers { tray.new ≡ tray_holding_unless tray.old number pair place }
{
    tray::hold(tray.first_chunk_mut().unwrap(), number, pair, place)?;
    keep_with(tray, place.answer());
    Ok(())
}

// Puts a sample in: the pair's index. The number, u and y are plain numbers, as in `tray::put`.
pub fn put(tray: &mut [u32], number: u32, u: u32, y: u32) -> Result<Index, Refusal>
    ensures answer { result ≡ put_answer tray.old number u y }
    ensures numbers { tray.new ≡ tray_after_put tray.old number u y }
{
    let Some(tray) = tray.as_mut_array::<TRAY_SIZE>() else {
        return Err(Refusal::NotATray);
    };
    let index = tray::put(tray.first_chunk_mut::<PLACES_SIZE>().unwrap(), number, u, y)?;
    keep_with(tray, Ok(index));
    Ok(index)
}

// Takes a sample out.
pub fn take(tray: &mut [u32], number: u32) -> Result<Sample, Refusal>
    ensures answer { result ≡ take_answer tray.old number }
    ensures numbers { tray.new ≡ tray_after_take tray.old number }
{
    let Some(tray) = tray.as_mut_array::<TRAY_SIZE>() else {
        return Err(Refusal::NotATray);
    };
    let sample = tray::take(tray.first_chunk_mut::<PLACES_SIZE>().unwrap(), number)?;
    keep_without(tray, sample.answer);
    Ok(sample)
}

// The state of a tray, by what it keeps: none where it is empty.
#[tactic(auto, unfolding(crate::specs::SummaryTray::state_of))]
pub fn summary(tray: &[u32]) -> Result<Option<Summary>, Refusal>
    ensures { result ≡ state_of tray.now }
{
    let Some(tray) = tray.as_array::<TRAY_SIZE>() else {
        return Err(Refusal::NotATray);
    };
    Ok(state_with(kept(tray)))
}
