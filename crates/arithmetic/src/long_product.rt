// Products past 64 bits, as words of 64: the product of two u64, and a product times a u32.
// Words and no u128: a product times a u32 passes 128 bits, and takes the other apart by its words.

ghost use Rattle.std.specs.Prelude.{◌≡◌, ◌*◌};
ghost use Rattle.arithmetic.specs.Words.{value, scaled_value};

// high · 2^64 + low. The order of the fields is that of the numbers.
#[derive(Clone, Copy, PartialEq, Eq, PartialOrd, Ord)]
pub struct Product {
    pub high: u64,
    pub low: u64,
}

// (top · 2^64 + middle) · 2^64 + low. The order of the fields is that of the numbers.
#[derive(Clone, Copy, PartialEq, Eq, PartialOrd, Ord)]
pub struct Scaled {
    pub top: u64,
    pub middle: u64,
    pub low: u64,
}

// a · b
pub fn multiply(a: u64, b: u64) -> Product
    ensures { value result ≡ a * b }
{
    let (low, high) = a.carrying_mul(b, 0);
    Product { high, low }
}

// x · k: each word of x times k, with the carry.
pub fn scale(x: Product, k: u32) -> Scaled
    ensures { scaled_value result ≡ k * value x }
{
    let factor = u64::from(k);
    let (low, carry) = x.low.carrying_mul(factor, 0);
    let (middle, top) = x.high.carrying_mul(factor, carry);
    Scaled { top, middle, low }
}
