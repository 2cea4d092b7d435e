// The table of thresholds: entry i is the least p that shows an index of at least 99.5 + i.
ghost use Rattle.std.specs.Prelude.{◌≡◌, true, ◌<◌, ◌≤◌, IfSome};
ghost use Rattle.shown_index.specs.declared.search.Trial.TheVariants as trial;
ghost use Rattle.shown_index.specs.Terms.{least_index, most_index};
ghost use Rattle.shown_index.specs.ThresholdTable.{threshold_table};
ghost use Rattle.shown_index.specs.ChosenIndex.{trial_of};

use crate::guess::guess_in_table;
use crate::threshold_table::THRESHOLDS;
use crate::{Fractions, LEAST_INDEX};

// How many entries the table has.
pub const THRESHOLDS_TABLE_SIZE: usize = 513;

// The table, where it lies.
#[tactic(auto, unfolding(crate::specs::ThresholdTable::threshold_table))]
pub fn thresholds_table() -> &'static [u32; THRESHOLDS_TABLE_SIZE]
    ensures { result.now ≡ threshold_table }
{
    &THRESHOLDS
}

// The greatest index that the table can settle, and its last entry.
const GREATEST_SETTLED: u64 = 611;

const LAST_THRESHOLD: u64 = 11_209_315;

// Do two entries of the table tell that k is settled? They do for most oils up to GREATEST_SETTLED; a no says nothing. The table is not searched: k is guessed.
// The source's table is that of specs/.
#[tactic(auto, using(crate::proofs::ThresholdEntries::settled_by_thresholds), unfolding(crate::specs::ThresholdTable::threshold_table))]
fn settled_by_thresholds(k: u64, n: Fractions) -> bool
    requires { least_index ≤ k }
    ensures value { result ≡ true → trial_of k n.lower n.upper ≡ trial.Settled }
    ensures table { THRESHOLDS ≡ threshold_table }
{
    if GREATEST_SETTLED < k {
        return false;
    }
    let i = (k - LEAST_INDEX) as usize;
    if n.lower < u64::from(THRESHOLDS[i]) {
        return false;
    }
    n.upper + 2 <= u64::from(THRESHOLDS[i + 1])
}

// The index where the table tells that it is settled. From its last entry on it never does: asked first, so that a processor which took the wrong branch
// finds out before the guess.
pub fn settled_index(n: Fractions) -> Option<u64>
    ensures { IfSome result (λ k. (least_index ≤ k) × (k < most_index) × (trial_of k n.lower n.upper ≡ trial.Settled)) }
{
    if LAST_THRESHOLD <= n.lower {
        return None;
    }
    let k = guess_in_table(n.lower);
    if settled_by_thresholds(k, n) {
        return Some(k);
    }
    None
}
