// The C interface to the mean, the variance and the deviation of six sums N, S, T, A, B, P.

ghost use Rattle.spec_statistics.specs.Moments.{mean_call, variance_call, deviation_call};
ghost use Rattle.spec_c.specs.CResult.{c_result, sums, of_whole};
ghost use Rattle.spec_c.specs.Leaves.{CallLeaves};

use crate::results::{EMPTY, hand_back_or};
use local_statistics::Sums;

// `statistics::moments::mean`: the mean of f.
#[unsafe(no_mangle)]
pub extern "C" fn ls_mean(n: i64, s: i64, t: i64, a: i64, b: i64, p: i64, mean: &mut i64) -> i32
    ensures { CallLeaves (c_result of_whole (mean_call (sums n s t a b p))) mean.old result mean.new }
{
    hand_back_or(
        local_statistics::mean(Sums { n, s, t, a, b, p }),
        EMPTY,
        mean,
    )
}

// `statistics::moments::variance`: the variance of f.
#[unsafe(no_mangle)]
pub extern "C" fn ls_variance(
    n: i64,
    s: i64,
    t: i64,
    a: i64,
    b: i64,
    p: i64,
    variance: &mut i64,
) -> i32
    ensures { CallLeaves (c_result of_whole (variance_call (sums n s t a b p))) variance.old result variance.new }
{
    hand_back_or(
        local_statistics::variance(Sums { n, s, t, a, b, p }),
        EMPTY,
        variance,
    )
}

// `statistics::moments::deviation`: the deviation of f.
#[unsafe(no_mangle)]
pub extern "C" fn ls_deviation(
    n: i64,
    s: i64,
    t: i64,
    a: i64,
    b: i64,
    p: i64,
    deviation: &mut i64,
) -> i32
    ensures { CallLeaves (c_result of_whole (deviation_call (sums n s t a b p))) deviation.old result deviation.new }
{
    hand_back_or(
        local_statistics::deviation(Sums { n, s, t, a, b, p }),
        EMPTY,
        deviation,
    )
}
