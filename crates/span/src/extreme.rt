// The least or the greatest index over a stretch of y at one u.
ghost use Rattle.std.specs.Prelude.{◌≡◌, ◌≤◌};
ghost use Rattle.reference.specs.Viscosity.{least100, greatest100};
ghost use Rattle.span.specs.Extremes.{is_beyond, of_two, IsExtreme};
ghost use Rattle.span.specs.Span.{index_at};
ghost use Rattle.span.specs.Bound.{bound_of, end_of, first_of, last_of, index_between};
ghost use Rattle.span.specs.Preconditions.{Stretch, InOnePart};

use crate::bound::index_between;
use reference::LAST_ROW;

// Which of the two is sought.
#[derive(Clone, Copy, Debug, PartialEq, Eq)]
pub enum Extreme {
    Least,
    Greatest,
}

impl Extreme {
    // Is the index a beyond b: lower, where the least is sought, or higher?
    fn is_beyond(self, a: i32, b: i32) -> bool
        ensures { result ≡ is_beyond self a b }
    {
        match self {
            Extreme::Least => a < b,
            Extreme::Greatest => b < a,
        }
    }

    // Of two indices the one that is sought.
    fn of_two(self, a: i32, b: i32) -> i32
        ensures { result ≡ of_two self a b }
    {
        match self {
            Extreme::Least => a.min(b),
            Extreme::Greatest => a.max(b),
        }
    }

    // The end of a stretch at which it is most often found, and the first and the last of the others; there are none where the last is below the first.
    fn end_of(self, from: u32, to: u32) -> u32
        ensures { result ≡ end_of self from to }
    {
        match self {
            Extreme::Least => from,
            Extreme::Greatest => to,
        }
    }

    fn first_of(self, from: u32) -> u32
        requires { from ≤ greatest100 }
        ensures { result ≡ first_of self from }
    {
        match self {
            Extreme::Least => from + 1,
            Extreme::Greatest => from,
        }
    }

    fn last_of(self, to: u32) -> u32
        requires { least100 ≤ to }
        ensures { result ≡ last_of self to }
    {
        match self {
            Extreme::Least => to,
            Extreme::Greatest => to - 1,
        }
    }

    // A bound that no index of a stretch is beyond.
    fn bound_of(self, u: u32, from: u32, to: u32) -> i32
        requires { Stretch u from to }
        ensures { result ≡ bound_of self u from to }
    {
        match self {
            Extreme::Least => index_between(u, from, to),
            Extreme::Greatest => index_between(u, to, from),
        }
    }

    // Over a stretch of the table alone, or of the quadratics alone: stretches whose bound is not beyond what was found are passed over, twice as wide each time;
    // where the bound is beyond, half the stretch is looked at.
    fn in_one_part(self, u: u32, from: u32, to: u32) -> i32
        requires { Stretch u from to × InOnePart from to }
        ensures { IsExtreme self (index_at u) from to result }
    {
        let end = self.end_of(from, to);
        let mut found = index_between(u, end, end);
        let mut next = self.first_of(from);
        let last = self.last_of(to);
        let mut width = to - from;
        while next <= last {
            let bound = self.bound_of(u, next, next + (width - 1));
            if self.is_beyond(bound, found) && 1 < width {
                width /= 2;
            } else {
                // Of one y the bound is its index. Of more it is not beyond what was found, which stays.
                found = self.of_two(found, bound);
                next += width;
                width = (2 * width).min(last + 1 - next);
            }
        }
        found
    }

    // Over any stretch: what is found in the table and by the quadratics, which do not meet.
    pub fn over(self, u: u32, from: u32, to: u32) -> i32
        requires { Stretch u from to }
        ensures { IsExtreme self (index_at u) from to result }
    {
        if to <= LAST_ROW || LAST_ROW < from {
            return self.in_one_part(u, from, to);
        }
        let in_table = self.in_one_part(u, from, LAST_ROW);
        let above = self.in_one_part(u, LAST_ROW + 1, to);
        self.of_two(in_table, above)
    }
}
