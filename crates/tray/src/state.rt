// The state of a tray: what the samples held come to, found by a walk over the places.
ghost use Rattle.std.specs.Prelude.{◌≡◌, None};
ghost use Rattle.tray_places.specs.Places.{places, held_in};
ghost use Rattle.tray.specs.State.{state_after, state_of, RightState, with_place, summary_in, state_with};
ghost use Rattle.index_summary.specs.Preconditions.{Within};

use crate::Refusal;
use index_summary::Summary;
use tray_places::{PLACE_SIZE, Place, TRAY_SIZE, is_free, places_in};

// The summary with one place more.
fn with_place(place: &[u32; PLACE_SIZE], t: Summary) -> Summary
    requires { Within places t }
    ensures { result ≡ with_place place.now 0 t }
{
    if is_free(place) {
        return t;
    }
    t.joined(Place::from(place).answer())
}

// The summary of the samples held, place by place.
pub fn walk(tray: &[u32; TRAY_SIZE]) -> Summary
    ensures { result ≡ summary_in (state_after None (held_in tray.now)) }
{
    let mut t = Summary::default();
    for place in places_in(tray) {
        t = with_place(place, t);
    }
    t
}

// The state with that summary: none where nothing is counted.
#[tactic(auto, unfolding(crate::specs::State::state_with))]
pub fn state_with(t: Summary) -> Option<Summary>
    ensures { result ≡ state_with t }
{
    if t.is_of_none() { None } else { Some(t) }
}

// The state of a tray: what it holds comes to, none where it is empty.
#[tactic(auto, using(crate::proofs::Walk::walk_told, crate::proofs::Walk::walk_right), unfolding(crate::specs::State::state_of))]
pub fn summary(tray: &[u32]) -> Result<Option<Summary>, Refusal>
    ensures value { result ≡ state_of tray.now }
    ensures right { RightState tray.now result }
{
    let Some(tray) = tray.as_array::<TRAY_SIZE>() else {
        return Err(Refusal::NotATray);
    };
    Ok(state_with(walk(tray)))
}
