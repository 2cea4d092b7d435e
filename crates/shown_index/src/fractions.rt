// The two fractions that enclose N, as document 01 has them: N is known to lie from p / Q to P / Q.
ghost use Rattle.std.specs.Prelude.{◌<◌, ◌≤◌, ◌+◌};
ghost use Rattle.shown_index.specs.ChosenIndex.{most_lower};

// Their numerators over Q: p (lower) and P (upper), at most two apart. N is at most 11/6 for every oil below H.
#[derive(Clone, Copy, Debug, PartialEq, Eq)]
pub struct Fractions {
    pub lower: u64,
    pub upper: u64,
    pub ghost few: { lower ≤ most_lower },
    pub ghost order: { lower < upper },
    pub ghost next: { upper ≤ lower + 2 },
}
