// Refusal 9: "sums impossible", decided for any six i64 with no overflow on the way, and Vf, Vg and C of the others.

ghost use Rattle.std.specs.Prelude.{◌≡◌, ◌-ℤ◌, ◌*ℤ◌};
ghost use Rattle.spec_statistics.specs.SixSums.{unbounded};
ghost use Rattle.spec_statistics.specs.Central.{central_call};
ghost use Rattle.spec_picture.specs.Answers.{optional_outcome};
ghost use Rattle.spec_statistics.specs.Limits.{Factors};

use crate::bounds::unbounded;
use arithmetic::long_order::at_most;
use arithmetic::long_product::multiply;
use arithmetic::machine::magnitude;
use spec_picture::Refusal;
use spec_statistics::{CentralMoments, Sums};

// N.P - S.T, which is C; with T = S and P = A it is Vf.
fn covariance(n: i64, s: i64, t: i64, p: i64) -> i64
    requires { Factors n s t p }
    ensures { result ≡ n *ℤ p -ℤ s *ℤ t }
{
    n * p - s * t
}

// N, Vf, Vg and C, where none of the conditions of 9 holds and N is not 0. The bounds are tested first, so that each of the three forms fits; C² and
// Vf.Vg take two words each.
pub fn central_moments(z: Sums) -> Result<Option<CentralMoments>, Refusal>
    ensures { optional_outcome result ≡ central_call z }
{
    if unbounded(z) {
        return Err(Refusal::Sums);
    }
    let Sums { n, s, t, a, b, p } = z;
    let f = covariance(n, s, s, a);
    let g = covariance(n, t, t, b);
    let c = covariance(n, s, t, p);
    let Ok(vf) = u64::try_from(f) else {
        return Err(Refusal::Sums);
    };
    let Ok(vg) = u64::try_from(g) else {
        return Err(Refusal::Sums);
    };
    let size = magnitude(c);
    if !at_most(multiply(size, size), multiply(vf, vg)) {
        return Err(Refusal::Sums);
    }
    let count = magnitude(n);
    if count == 0 {
        return Ok(None);
    }
    Ok(Some(CentralMoments { count, vf, vg, c }))
}
