// A summary with one answer less, and when it can be made of the summary alone: an answer whose index is the lowest or the highest may leave another lowest or
// highest behind, which only the other answers say.
ghost use Rattle.std.specs.Prelude.{◌≡◌};
ghost use Rattle.std.specs.Int.Signed.{mag};
ghost use Rattle.index_summary.specs.Summary.{is_between, without_of};
ghost use Rattle.index_summary.specs.Preconditions.{most, Within, is_within};

use crate::Summary;
use index::Index;
use index::answer::index_of;

// What the fields of a summary may come to, to which one answer more may be added: 2^32, that times 65,536, and 65,536.
const MOST_INDEX: u64 = 4_294_967_296;

const MOST_SUM: u64 = 281_474_976_710_656;

const MOST_COUNT: u32 = 65_536;

// How far a number is from the nearer of 0 and −1: n for n and for −(n + 1).
pub fn magnitude(x: i64) -> u64
    ensures { result ≡ mag x }
{
    x.max(!x) as u64
}

impl Summary {
    // Is it a summary that one answer more may be added to?
    #[tactic(auto, unfolding(crate::specs::Preconditions::is_within))]
    pub fn is_within(self) -> bool
        ensures { result ≡ is_within self }
    {
        magnitude(self.lowest) <= MOST_INDEX
            && magnitude(self.highest) <= MOST_INDEX
            && magnitude(self.sum) <= MOST_SUM
            && self.a <= MOST_COUNT
            && self.settled <= MOST_COUNT
            && self.near <= MOST_COUNT
    }

    // Is the index of an answer above the lowest, and the highest above it?
    pub fn is_between<R: Copy>(self, answer: Result<Index, R>) -> bool
        ensures { result ≡ is_between self answer }
    {
        let index = index_of(answer);
        self.lowest < index && index < self.highest
    }

    // A summary with one answer less; the lowest and the highest stay. An inner function, as `joined` is.
    #[tactic(auto, unfolding(crate::specs::Summary::alone_of, crate::specs::Summary::without_of))]
    pub fn without<R: Copy>(self, answer: Result<Index, R>) -> Summary
        requires { Within most self }
        ensures { result ≡ without_of self answer }
    {
        let one = Summary::of(answer);
        Summary {
            sum: self.sum - one.sum,
            a: self.a.saturating_sub(one.a),
            settled: self.settled.saturating_sub(one.settled),
            near: self.near.saturating_sub(one.near),
            ..self
        }
    }
}
