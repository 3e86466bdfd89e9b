// The C interface to the voice answer of six sums N, S, T, A, B, P.
#![tactic(auto, unfolding(spec_c::specs::CResult::status, spec_c::specs::CResult::result_or, spec_c::specs::CResult::c_result))]

ghost use Rattle.spec_statistics.specs.Voice.{voice_call};
ghost use Rattle.spec_c.specs.CResult.{c_result, sums, voice_result, of_voice};
ghost use Rattle.spec_c.specs.Leaves.{CallLeaves};

use crate::results::{EMPTY, GRAINY, STEADY, refused};
use local_statistics::{Sums, Voice, voice_answer};

// `statistics::voices::voice_answer`: the kind of f's voice, 1 Steady or 2 Grainy, with its level and spread; the spread of a steady voice is 0.
// The answer has three cases, so it is taken apart here.
#[unsafe(no_mangle)]
pub extern "C" fn ls_voice(
    n: i64,
    s: i64,
    t: i64,
    a: i64,
    b: i64,
    p: i64,
    kind: &mut u32,
    level: &mut f32,
    spread: &mut f32,
) -> i32
    ensures { CallLeaves (c_result of_voice (voice_call (sums n s t a b p))) (voice_result kind.old level.old spread.old) result (voice_result kind.new level.new spread.new) }
{
    let sums = Sums { n, s, t, a, b, p };
    match voice_answer(sums) {
        Ok(Voice::Empty) => EMPTY,
        Ok(Voice::Steady(l)) => {
            *kind = STEADY;
            *level = l;
            *spread = 0.0;
            0
        }
        Ok(Voice::Grainy(grain)) => {
            *kind = GRAINY;
            *level = grain.level;
            *spread = grain.spread;
            0
        }
        Err(refusal) => refused(refusal),
    }
}
