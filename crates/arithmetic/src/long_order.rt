// The order of products past 64 bits. The structs derive it, word by word from the upper one; that it is the order of the numbers is proved here, once for
// each: the proof goes over the words, of which one type has two and the other three, so a generic function would ask a trait for what is shown here.

ghost use Rattle.std.specs.Prelude.{◌≡◌, leb};
ghost use Rattle.arithmetic.specs.Words.{value, scaled_value};

use crate::long_product::{Product, Scaled};

// x ≤ y
pub fn at_most(x: Product, y: Product) -> bool
    ensures { result ≡ leb (value x) (value y) }
{
    x <= y // the upper word decides first
}

// x ≤ y
pub fn scaled_at_most(x: Scaled, y: Scaled) -> bool
    ensures { result ≡ leb (scaled_value x) (scaled_value y) }
{
    x <= y // the top word decides first
}
