// Sums and differences of i64 that wrap at 64 bits: std's methods, which promise it of the bits. The promise of the integers, `wrap`, is stated here once.

ghost use Rattle.std.specs.Prelude.{◌≡◌, ◌+ℤ◌, ◌-ℤ◌};
ghost use Rattle.numbers.specs.Wrap.{wrap};

// a + b, wrapped at 64 bits.
pub fn wrapping_add(a: i64, b: i64) -> i64
    ensures { result ≡ wrap (a +ℤ b) }
{
    a.wrapping_add(b)
}

// a - b, wrapped at 64 bits.
pub fn wrapping_sub(a: i64, b: i64) -> i64
    ensures { result ≡ wrap (a -ℤ b) }
{
    a.wrapping_sub(b)
}
