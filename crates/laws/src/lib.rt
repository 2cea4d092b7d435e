// Laws of arithmetic, orders, powers and differences (proofs/), what several crates' definitions name (specs/), and the one step of arithmetic that
// several crates take.
#![tactic(auto)]

ghost use Rattle.std.specs.Prelude.{◌≡◌, ◌<◌};
ghost use Rattle.std.proofs.Math.IntN.{sub_ℕ};
ghost use Rattle.laws.specs.Bits.{half32};

// a − b, of either sign. An inner function, for callers that know both to fit.
pub fn signed_difference(a: u64, b: u64) -> i32
    requires { (a < half32) × (b < half32) }
    ensures { result ≡ sub_ℕ a b }
{
    (a as i32) - (b as i32)
}
