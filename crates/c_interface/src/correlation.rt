// The C interface to the coefficient of six sums N, S, T, A, B, P.
#![tactic(auto, unfolding(spec_c::specs::CResult::status, spec_c::specs::CResult::result_or, spec_c::specs::CResult::c_result))]

ghost use Rattle.spec_statistics.specs.Coefficient.{coefficient_call};
ghost use Rattle.spec_c.specs.CResult.{c_result, sums, of_coefficient};
ghost use Rattle.spec_c.specs.Leaves.{CallLeaves};

use crate::results::{EMPTY, FLAT, refused};
use local_statistics::{Coefficient, Sums};

// `statistics::correlation::coefficient`: the coefficient of f and g. Its answer has three cases, so it is taken apart here.
#[unsafe(no_mangle)]
pub extern "C" fn ls_coefficient(
    n: i64,
    s: i64,
    t: i64,
    a: i64,
    b: i64,
    p: i64,
    coefficient: &mut i64,
) -> i32
    ensures { CallLeaves (c_result of_coefficient (coefficient_call (sums n s t a b p))) coefficient.old result coefficient.new }
{
    let sums = Sums { n, s, t, a, b, p };
    match local_statistics::coefficient(sums) {
        Ok(Coefficient::Empty) => EMPTY,
        Ok(Coefficient::Flat) => FLAT,
        Ok(Coefficient::Value(c)) => {
            *coefficient = c;
            0
        }
        Err(refusal) => refused(refusal),
    }
}
