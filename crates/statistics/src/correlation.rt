// How two pictures go together: the coefficient.
#![tactic(auto, unfolding(spec_picture::specs::Refusal::refusal, spec_picture::specs::Refusal::outcome, spec_statistics::specs::Central::central_call, spec_statistics::specs::Coefficient::coefficient_call))]

ghost use Rattle.std.specs.Prelude.{◌≡◌};
ghost use Rattle.numbers.specs.Round.{root_over};
ghost use Rattle.arithmetic.specs.Words.{value, scaled_value};
ghost use Rattle.spec_statistics.specs.Coefficient.{coefficient_call};
ghost use Rattle.spec_statistics.specs.Answers.{coefficient_outcome};
ghost use Rattle.spec_statistics.specs.Limits.{Correlated};

use crate::central::central_moments;
use arithmetic::long_order::scaled_at_most;
use arithmetic::long_product::{Product, Scaled, multiply, scale};
use arithmetic::machine::magnitude;
use spec_picture::Refusal;
use spec_statistics::{Coefficient, Sums};

// The largest c with c²·x ≤ y, bit by bit from the top: c is at most 1,000, which ten bits hold.
fn long_root(y: Scaled, x: Product) -> u32
    requires { Correlated (value x) (scaled_value y) }
    ensures { result ≡ root_over (scaled_value y) (value x) }
{
    let mut c: u32 = 0;
    for bit in 0..10u32 {
        let more = c + (512 >> bit);
        if scaled_at_most(scale(x, more * more), y) {
            c = more;
        }
    }
    c
}

// "Empty if N = 0; Flat if Vf or Vg is 0; otherwise the sign of C times the largest whole c .. with c²·Vf·Vg ≤ 1,000,000·C²."
pub fn coefficient(z: Sums) -> Result<Coefficient, Refusal>
    ensures { coefficient_outcome result ≡ coefficient_call z }
{
    let Some(m) = central_moments(z)? else {
        return Ok(Coefficient::Empty);
    };
    if m.vf == 0 || m.vg == 0 {
        return Ok(Coefficient::Flat);
    }
    let size = magnitude(m.c);
    let largest = long_root(scale(multiply(size, size), 1000000), multiply(m.vf, m.vg));
    Ok(Coefficient::Value(m.c.signum() * i64::from(largest)))
}
