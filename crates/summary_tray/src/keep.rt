// How the summary is kept: an answer that comes in is joined to it. One that leaves is taken from it, unless it may leave another lowest or highest behind: then
// the samples that are left are walked. So they are where the kept numbers are too large to add one answer more, which no list of calls makes them.
ghost use Rattle.std.specs.Prelude.{◌≡◌, ◌++◌};
ghost use Rattle.summary_block.specs.Block.{block_of};
ghost use Rattle.summary_tray.specs.SummaryTray.{places_in, kept_in, walk_of, with_one, says_rest, without_one};

use crate::TRAY_SIZE;
use index::Answer;
use index_summary::Summary;
use summary_block::{read_block, store_block};
use tray::state::walk;

// The summary that a tray keeps.
pub fn kept(tray: &[u32; TRAY_SIZE]) -> Summary
    ensures { result ≡ kept_in tray.now }
{
    read_block(tray.last_chunk().unwrap())
}

// The summary of the samples held, by a walk over them.
fn found(tray: &[u32; TRAY_SIZE]) -> Summary
    ensures { result ≡ walk_of (places_in tray.now) }
{
    walk(tray.first_chunk().unwrap())
}

// Lets a tray keep a summary.
fn keep(tray: &mut [u32; TRAY_SIZE], t: Summary)
    ensures { tray.new ≡ places_in tray.old ++ block_of t }
{
    store_block(tray.last_chunk_mut().unwrap(), t);
}

// The summary of a tray in which an answer has come in that is not kept yet.
#[tactic(auto, using(index_summary::proofs::OneLess::passes), unfolding(crate::specs::SummaryTray::with_one))]
fn with_one(tray: &[u32; TRAY_SIZE], answer: Answer) -> Summary
    ensures { result ≡ with_one (kept_in tray.now) answer (places_in tray.now) }
{
    let t = kept(tray);
    if t.is_within() {
        t.joined(answer)
    } else {
        found(tray)
    }
}

// Does a summary say what is left where an answer leaves?
fn says_rest(t: Summary, answer: Answer) -> bool
    ensures { result ≡ says_rest t answer }
{
    t.is_within() && t.is_between(answer)
}

// The summary of a tray from which an answer has left that is still kept. One function for this and `with_one` would be no plainer: it would take the test and
// the step, and each has a definition of its own.
#[tactic(auto, using(crate::proofs::Parts::says_within), unfolding(crate::specs::SummaryTray::without_one))]
fn without_one(tray: &[u32; TRAY_SIZE], answer: Answer) -> Summary
    ensures { result ≡ without_one (kept_in tray.now) answer (places_in tray.now) }
{
    let t = kept(tray);
    if says_rest(t, answer) {
        t.without(answer)
    } else {
        found(tray)
    }
}

// Keeps the summary where an answer has come in.
pub fn keep_with(tray: &mut [u32; TRAY_SIZE], answer: Answer)
    ensures { tray.new ≡ places_in tray.old ++ block_of (with_one (kept_in tray.old) answer (places_in tray.old)) }
{
    let t = with_one(tray, answer);
    keep(tray, t);
}

// And where one has left.
pub fn keep_without(tray: &mut [u32; TRAY_SIZE], answer: Answer)
    ensures { tray.new ≡ places_in tray.old ++ block_of (without_one (kept_in tray.old) answer (places_in tray.old)) }
{
    let t = without_one(tray, answer);
    keep(tray, t);
}
