// The voice answer of six sums. Level and spread are mean and deviation, each by one call of `rounding`, as in `moments`.
#![tactic(auto, unfolding(spec_picture::specs::Refusal::refusal, spec_picture::specs::Refusal::outcome, spec_statistics::specs::Central::central_call, spec_statistics::specs::Moments::unless_empty, spec_statistics::specs::Voice::voice_call, spec_statistics::specs::Voice::voice))]

ghost use Rattle.std.specs.Prelude.{◌≡◌};
ghost use Rattle.spec_statistics.specs.Voice.{voice_call};
ghost use Rattle.spec_statistics.specs.Answers.{voice_outcome};

use crate::central::central_moments;
use crate::rounding::{nearest, over_32768, whole_root};
use spec_picture::Refusal;
use spec_statistics::{Grain, Sums, Voice};

// "Empty if N = 0; Steady with a level if Vf = 0; otherwise Grainy with a level and a spread."
pub fn voice_answer(z: Sums) -> Result<Voice, Refusal>
    ensures { voice_outcome result ≡ voice_call z }
{
    let Some(m) = central_moments(z)? else {
        return Ok(Voice::Empty);
    };
    let level = over_32768(nearest(z.s, m.count));
    if m.vf == 0 {
        return Ok(Voice::Steady(level));
    }
    let spread = over_32768(whole_root(m.vf, m.count * m.count) as i64);
    Ok(Voice::Grainy(Grain { level, spread }))
}
