// The index that an oil would have with L and H at one viscosity at 100 °C and with the logarithm of another. Up to 70 mm²/s, and again above, the index does not
// fall as H and L − H rise, which rise with y, and it does not rise with the logarithm of y. So L and H of one end of a stretch of y and the logarithm of the
// other end give a bound of all indices in the stretch; of one y alone they give its index.
ghost use Rattle.std.specs.Prelude.{◌≡◌};
ghost use Rattle.span.specs.Bound.{index_between};
ghost use Rattle.span.specs.Preconditions.{Between};

use index::procedure_a::rounded_a;
use index::procedure_b::{Oil, procedure_b};
use reference::{Kv100, Located, ReferenceOil};

// The index with L and H at one y and the logarithm of another.
pub fn index_between(u: u32, at: u32, y: u32) -> i32
    requires { Between u at y }
    ensures { result ≡ index_between u at y }
{
    let located = Located::new(Kv100 { thousandths: at });
    let h = located.value(ReferenceOil::H);
    let units = reference::in_units(u);
    if units < h {
        return procedure_b(Oil { u, y, h }).index as i32;
    }
    rounded_a(located.value(ReferenceOil::L), h, units)
}
