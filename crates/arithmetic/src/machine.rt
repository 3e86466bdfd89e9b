// The difference and the product of two levels as numbers of 64 bits, and the magnitude of such a number.

ghost use Rattle.std.specs.Prelude.{◌≡◌, nat_abs, ◌-ℤ◌, ◌*ℤ◌};

// e - l, of two levels. A name for what i64 computes, so that its promise of the integers is proved once and not in every loop.
pub fn difference(e: i16, l: i16) -> i64
    ensures { result ≡ e -ℤ l }
{
    i64::from(e) - i64::from(l)
}

// a times b, of two levels: of 31 bits, which 32 hold. Named for the same reason.
pub fn product(a: i16, b: i16) -> i64
    ensures { result ≡ a *ℤ b }
{
    i64::from(i32::from(a) * i32::from(b))
}

// |z|, also of the least i64, which has no opposite there. std's method, with its promise in the words of the definitions.
pub fn magnitude(z: i64) -> u64
    ensures { result ≡ nat_abs z }
{
    z.unsigned_abs()
}
