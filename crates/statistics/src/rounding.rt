// The nearest whole quotient, the whole root of a ratio, and a whole number over 32,768.
// For callers that have checked their inputs.

ghost use Rattle.std.specs.Prelude.{◌≡◌, ◌≤◌, nat_abs};
ghost use Rattle.numbers.specs.Round.{nearest, root_over};
ghost use Rattle.spec_statistics.specs.Voice.{over32768};
ghost use Rattle.spec_statistics.specs.Limits.{Quotient, Ratio};

// The whole number nearest to x / d, a half going up: (2x + d) / 2d, rounded down.
pub fn nearest(x: i64, d: u64) -> i64
    requires { Quotient x d }
    ensures { result ≡ nearest x d }
{
    let divisor = d as i64;
    (2 * x + divisor).div_euclid(2 * divisor)
}

// The largest d with d²·q ≤ v: the whole root of v / q, which is of 31 bits.
pub fn whole_root(v: u64, q: u64) -> u64
    requires { Ratio v q }
    ensures { result ≡ root_over v q }
{
    u64::from(((v / q) as u32).isqrt())
}

// m over 32,768, exactly.
pub fn over_32768(m: i64) -> f32
    requires { nat_abs m ≤ 32768 }
    ensures { result ≡ over32768 m }
{
    m as f32 / 32768.0
}
