// What do the answers of several pairs come to? The lowest and the highest index, the sum of indices, and how many answers there are by procedure A, by B
// settled and by B near. The answers are added one by one, the first to a summary of nothing. Module `less` takes one away again.
#![tactic(auto)]

mod less;

ghost use Rattle.std.specs.Prelude.{◌≡◌};
ghost use Rattle.index_summary.specs.Summary.{alone_of, joined_of, nothing, is_of_none};
ghost use Rattle.index_summary.specs.Preconditions.{most, Within};

use index::Index;
use index::answer::index_of;
pub use less::magnitude;
use shown_index::Mark;

// Every index is below the one and above the other: 32 bits hold it, with sign or without. They are the lowest and the highest of no answers: an Option for
// each would be no plainer, since each answer that is joined would ask it; and a walk over a tray that carried an Option of a summary copied it 64 times, and took
// four times as long as plain C with one sample held (docs/DECISIONS.md).
const ABOVE_ALL: i64 = 4_294_967_296;

const BELOW_ALL: i64 = -4_294_967_297;

// A summary of answers. 64 bits hold every index and the sum of very many.
#[derive(Clone, Copy, Debug, PartialEq, Eq)]
pub struct Summary {
    pub lowest: i64,
    pub highest: i64,
    pub sum: i64,
    pub a: u32,
    pub settled: u32,
    pub near: u32,
}

// The summary of no answers, to add the first to.
impl Default for Summary {
    ghost is_default = { λ t. t ≡ nothing };

    fn default() -> Summary {
        Summary {
            lowest: ABOVE_ALL,
            highest: BELOW_ALL,
            sum: 0,
            a: 0,
            settled: 0,
            near: 0,
        }
    }
}

impl Summary {
    // The summary of one answer.
    #[tactic(auto, unfolding(crate::specs::Summary::alone_of))]
    pub fn of<R: Copy>(answer: Result<Index, R>) -> Summary
        ensures { result ≡ alone_of answer }
    {
        let index = index_of(answer);
        let (a, settled, near) = match answer {
            Err(_) => (0, 0, 0),
            Ok(Index::A(_)) => (1, 0, 0),
            Ok(Index::B(b)) => match b.mark {
                Mark::Settled => (0, 1, 0),
                Mark::Near => (0, 0, 1),
            },
        };
        Summary {
            lowest: index,
            highest: index,
            sum: index,
            a,
            settled,
            near,
        }
    }

    // Is it of no answers?
    pub fn is_of_none(self) -> bool
        ensures { result ≡ is_of_none self }
    {
        self.a == 0 && self.settled == 0 && self.near == 0
    }

    // A summary with one answer more. An inner function, for callers that know the summary to be of few enough: an invariant of `Summary` in place of the
    // bound would ask it of whoever makes one, and crate summary_block makes one of any nine numbers.
    #[tactic(auto, unfolding(crate::specs::Summary::alone_of, crate::specs::Summary::joined_of))]
    pub fn joined<R: Copy>(self, answer: Result<Index, R>) -> Summary
        requires { Within most self }
        ensures { result ≡ joined_of self answer }
    {
        let one = Summary::of(answer);
        Summary {
            lowest: self.lowest.min(one.lowest),
            highest: self.highest.max(one.highest),
            sum: self.sum + one.sum,
            a: self.a + one.a,
            settled: self.settled + one.settled,
            near: self.near + one.near,
        }
    }
}
