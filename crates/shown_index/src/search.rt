// The index where the table of thresholds does not tell: the guess is tried, and k is searched where the guess was wrong.
ghost use Rattle.std.specs.Prelude.{◌≡◌, ◌<◌, ◌≤◌};
ghost use Rattle.shown_index.specs.Terms.{least_index, most_index};
ghost use Rattle.shown_index.specs.ChosenIndex.{whole_of, made, marked_of, trial_of, chosen_index};

use crate::compare::{LogC, shown_below};
use crate::guess::guess;
use crate::{ByB, Fractions, LEAST_INDEX, MOST_INDEX, Mark};

// What trying k says of the index: k is settled, k + 1 is near, the index is higher, or it is lower.
#[derive(Clone, Copy, Debug, PartialEq, Eq)]
pub enum Trial {
    Settled,
    Near,
    Higher,
    Lower,
}

// What trying k says.
#[tactic(auto, unfolding(crate::specs::ChosenIndex::trial_of, crate::specs::ChosenIndex::shows_least, crate::specs::ChosenIndex::shows_most))]
fn try_index(k: u64, n: Fractions) -> Trial
    requires { (least_index ≤ k) × (k < most_index) }
    ensures { result ≡ trial_of k n.lower n.upper }
{
    let above = LogC::of(100 * k + 50);
    if above.shows_least(n) {
        return Trial::Higher;
    }
    if shown_below(k, n) {
        if above.shows_most(n) {
            return Trial::Settled;
        }
        return Trial::Near;
    }
    Trial::Lower
}

// The search for k by halving, where the guess was wrong. The library halves a slice, and here there is none: lo and hi are indices of no array.
#[tactic(auto, using(crate::proofs::Halving::hundred_shown, crate::proofs::Halving::greatest_not_shown, crate::proofs::Halving::only_one))]
fn search(n: Fractions) -> u64
    ensures { result ≡ whole_of n.lower }
{
    let mut lo: u64 = LEAST_INDEX;
    let mut hi: u64 = MOST_INDEX;
    while lo + 1 < hi {
        let middle = (lo + hi) / 2;
        if shown_below(middle, n) {
            lo = middle;
        } else {
            hi = middle;
        }
    }
    lo
}

// An index by procedure B, from a k and fractions that are known to fit.
pub fn by_b(k: u64, mark: Mark, n: Fractions) -> ByB
    requires { k ≤ most_index }
    ensures { result ≡ made k mark n.lower n.upper }
{
    ByB {
        index: k as u32,
        mark,
        lower: n.lower as u32,
        upper: n.upper as u32,
    }
}

// The index and mark for a k that was searched: settled k, or near k + 1.
#[tactic(auto, unfolding(crate::specs::ChosenIndex::marked_of, crate::specs::ChosenIndex::shows_most))]
fn mark_of(k: u64, n: Fractions) -> ByB
    requires { (least_index ≤ k) × (k < most_index) }
    ensures { result ≡ marked_of k n.lower n.upper }
{
    if LogC::of(100 * k + 50).shows_most(n) {
        return by_b(k, Mark::Settled, n);
    }
    by_b(k + 1, Mark::Near, n)
}

// The index of p and P: the guess, where it proves right; otherwise the search.
#[tactic(auto, using(crate::proofs::Halving::whole, crate::proofs::Halving::settled_chosen, crate::proofs::Halving::near_chosen))]
pub fn searched_index(n: Fractions) -> ByB
    ensures { result ≡ chosen_index n.lower n.upper }
{
    let k = guess(n);
    match try_index(k, n) {
        Trial::Settled => by_b(k, Mark::Settled, n),
        Trial::Near => by_b(k + 1, Mark::Near, n),
        _ => mark_of(search(n), n),
    }
}
