// Which index two fractions show: procedure B from its numerators p and P on, with no oil in it.
//
// N is known to lie from p / Q to P / Q, Q = 2^24 and P at most p + 2. c(r) is 10^7 · 10^N at an index of r hundredths; its logarithm tells whether
// p shows "at least r" and P "at most r" (module `compare`). k is the whole number of which p shows at least k − 0.5 and not k + 0.5: it is
// guessed from p (`guess`), confirmed by a table of thresholds (`thresholds`) or tried, and searched by halving where the guess was wrong
// (`search`). If P shows at most k + 0.5, k is settled; otherwise the index is so close to k + 0.5 that it is near k + 1. All is done on 64-bit
// whole numbers.
#![tactic(auto)]

mod compare;
mod fractions;
mod guess;
mod search;
mod threshold_table;
mod thresholds;

ghost use Rattle.std.specs.Prelude.{◌≡◌};
ghost use Rattle.shown_index.specs.RightIndex.{RightIndex};
ghost use Rattle.shown_index.specs.ChosenIndex.{chosen_index};

pub use fractions::Fractions;
pub use thresholds::{THRESHOLDS_TABLE_SIZE, thresholds_table};

// Between which numbers an index by procedure B lies.
const LEAST_INDEX: u64 = 100;

const MOST_INDEX: u64 = 10_000;

// How sure an index of procedure B is: document 01's terms "settled" and "near".
#[derive(Clone, Copy, Debug, PartialEq, Eq)]
pub enum Mark {
    Settled,
    Near,
}

// What procedure B answers: the index, from 100 to 10,000; its mark; and p (lower) and P (upper), the numerators of its two fractions over Q.
#[derive(Clone, Copy, Debug, PartialEq, Eq)]
pub struct ByB {
    pub index: u32,
    pub mark: Mark,
    pub lower: u32,
    pub upper: u32,
}

// The index that two fractions show, by the table of thresholds where it tells.
#[tactic(auto, using(crate::proofs::Halving::settled_chosen, crate::proofs::Marks::right_index, crate::proofs::Marks::settled_right))]
pub fn index_of_fractions(n: Fractions) -> ByB
    ensures value { result ≡ chosen_index n.lower n.upper }
    ensures right { RightIndex result }
{
    match thresholds::settled_index(n) {
        Some(k) => search::by_b(k, Mark::Settled, n),
        None => search::searched_index(n),
    }
}
