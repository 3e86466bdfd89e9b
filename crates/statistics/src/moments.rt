// Mean, variance and deviation of six sums: Empty, which is None, where N = 0.
#![tactic(auto, unfolding(spec_picture::specs::Refusal::refusal, spec_picture::specs::Refusal::outcome, spec_statistics::specs::Central::central_call, spec_statistics::specs::Moments::mean_call, spec_statistics::specs::Moments::variance_call, spec_statistics::specs::Moments::deviation_call))]

ghost use Rattle.std.specs.Prelude.{◌≡◌};
ghost use Rattle.spec_picture.specs.Answers.{optional_outcome};
ghost use Rattle.numbers.specs.Round.{nearest};
ghost use Rattle.spec_statistics.specs.Moments.{mean_call, variance_call, deviation_call};

use crate::central::central_moments;
use crate::rounding::{nearest, whole_root};
use spec_picture::Refusal;
use spec_statistics::Sums;

// "Mean of f: the whole number nearest S/N, a half going up"
pub fn mean(z: Sums) -> Result<Option<i64>, Refusal>
    ensures { optional_outcome result ≡ mean_call z }
{
    Ok(central_moments(z)?.map(|m| nearest(z.s, m.count)))
}

// "Variance of f: the whole number nearest Vf/N², a half going up."
pub fn variance(z: Sums) -> Result<Option<i64>, Refusal>
    ensures { optional_outcome result ≡ variance_call z }
{
    Ok(central_moments(z)?.map(|m| nearest(m.vf as i64, m.count * m.count)))
}

// "Deviation of f: the whole d with d²·N² ≤ Vf < (d+1)²·N², taken of the unrounded variance."
pub fn deviation(z: Sums) -> Result<Option<i64>, Refusal>
    ensures { optional_outcome result ≡ deviation_call z }
{
    Ok(central_moments(z)?.map(|m| whole_root(m.vf, m.count * m.count) as i64))
}
