// A quotient to the nearest whole number, the only crate that rounds an index of procedure A.
#![tactic(auto)]

ghost use Rattle.std.specs.Prelude.{◌≡◌, ◌*◌, ◌<◌, ◌≤◌};
ghost use Rattle.std.proofs.Math.IntN.{sub_ℕ};
ghost use Rattle.rounding.specs.Nearest.{nearest, nearest_whole};
ghost use Rattle.rounding.specs.Preconditions.{QuotientFits, quarter64};

use laws::signed_difference;

// x / d to the nearest whole number, exactly a half to the even one: x / d rounded down, and one more where what is left is more than a half of d, or a
// half of it and that number odd.
#[tactic(auto, using(crate::proofs::Quotient::one_more))]
fn nearest_whole(x: u64, d: u64) -> u64
    requires { (0 < d) × (x ≤ quarter64) × (d ≤ quarter64) }
    ensures { result ≡ nearest_whole x d }
{
    let whole = x / d;
    whole + u64::from(d < 2 * (x % d) + whole % 2)
}

// w − x / d to the nearest whole number, exactly a half to the even one: x / d is rounded so, and w, which is even, less an even number is even. So no number
// below zero is divided. An inner function, for callers that know the result to fit.
#[tactic(auto, using(crate::proofs::Quotient::nearest_less, crate::proofs::Quotient::subtrahend_fits))]
pub fn nearest_less(w: u64, x: u64, d: u64) -> i32
    requires { QuotientFits w x d }
    ensures { result ≡ nearest (sub_ℕ (w * d) x) d }
{
    signed_difference(w, nearest_whole(x, d))
}
