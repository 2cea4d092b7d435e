// Procedure A: the index of an oil at or above H.
ghost use Rattle.std.specs.Prelude.{◌≡◌};
ghost use Rattle.index.specs.ProcedureA.{rounded_a};
ghost use Rattle.index.specs.Preconditions.{FractionFits};

// 100 · (L − U) / (L − H), rounded: that is 100 less 100 · (U − H) / (L − H), of which no part is below zero.
#[tactic(auto, using(crate::proofs::ProcedureA::rounded_from_h, crate::proofs::ProcedureA::quotient_fits))]
pub fn rounded_a(l: u64, h: u64, u: u64) -> i32
    requires { FractionFits l h u }
    ensures { result ≡ rounded_a l h u }
{
    rounding::nearest_less(100, 100 * (u - h), l - h)
}
