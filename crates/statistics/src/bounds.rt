// The bounds of refusal 9, for any six i64 with no overflow on the way.

ghost use Rattle.std.specs.Prelude.{◌≡◌};
ghost use Rattle.spec_statistics.specs.SixSums.{unbounded};

use spec_statistics::Sums;

// The bounds of 9. N is tested first, so that its multiples fit.
pub fn unbounded(z: Sums) -> bool
    ensures { result ≡ unbounded z }
{
    if !(0..=65025).contains(&z.n) {
        return true;
    }
    let count = z.n as u64;
    let sum_bound = 32768 * count;
    let square_bound = 1073741824 * count;
    // All tests at once: with `||`, a branch for each, the proof stays open.
    (z.s.unsigned_abs() > sum_bound)
        | (z.t.unsigned_abs() > sum_bound)
        | (z.a < 0)
        | (z.a.unsigned_abs() > square_bound)
        | (z.b < 0)
        | (z.b.unsigned_abs() > square_bound)
        | (z.p.unsigned_abs() > square_bound)
}
