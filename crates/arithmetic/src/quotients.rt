// The whole number nearest to x / d, a half going up, for many x and few d: a division for each d, and a multiplication for each x.
// For callers that have checked their inputs.

ghost use Rattle.std.specs.Prelude.{◌≡◌, ◌*◌, ◌<◌, ◌≤◌, nat_abs};
ghost use Rattle.numbers.specs.Round.{nearest};
ghost use Rattle.arithmetic.specs.Quotients.{Divisor, reciprocal};

use crate::long_product;

// A count of cells d, and what stands for a division by 2d: a number multiplied by it is divided in the upper 64 bits of the product.
#[derive(Clone, Copy)]
pub struct Reciprocal {
    pub of: u64,
    by: u64,
    pub ghost some: { 0 < of },
    pub ghost few: { of ≤ 65025 },
    ghost known: { by ≡ reciprocal of },
}

impl Reciprocal {
    // That of d.
    pub fn new(d: u64) -> Reciprocal
        requires { Divisor d }
        ensures { result.of ≡ d }
    {
        let by = u64::MAX / (2 * d);
        Reciprocal { of: d, by }
    }

    // (2x + d) / 2d, rounded down. Raised by 65,536 d, which the quotient shows as 32,768, the number above is not negative.
    pub fn nearest_by(self, x: i64) -> i64
        requires { nat_abs x ≤ 32768 * self.of }
        ensures { result ≡ nearest x self.of }
    {
        let raised = 2 * x + 65537 * (self.of as i64);
        let product = long_product::multiply(raised as u64 + 1, self.by);
        product.high as i64 - 32768
    }
}
