// The means of cells, of some rows one after the other, from their N and S.
// For callers that have checked their inputs.
#![tactic(auto)]

ghost use Rattle.std.specs.Prelude.{◌≡◌, nat_abs};
ghost use Rattle.numbers.specs.Round.{nearest};
ghost use Rattle.smoothing.specs.Means.{Counted, LevelSum, MeansRequires, means_of};

use arithmetic::quotients::Reciprocal;

// The reciprocal of N; `last` mostly is of the same number.
fn reciprocal_of(n: i64, last: Reciprocal) -> Reciprocal
    requires { Counted n }
    ensures { result.of ≡ nat_abs n }
{
    let count = n as u64;
    if count == last.of {
        return last;
    }
    Reciprocal::new(count)
}

// The mean of a cell from its S; `by` is the reciprocal of N.
fn mean(s: i64, by: Reciprocal) -> i16
    requires { LevelSum by.of s }
    ensures { result ≡ nearest s by.of }
{
    by.nearest_by(s) as i16
}

// The means of such cells, whose N and S are at the fronts of two areas. Along a row N seldom changes, so its reciprocal is kept from cell to
// cell. Not inlined: within its caller the loop took up to 1.55 times as long.
#[inline(never)]
pub fn row_means(n: &[i64], s: &[i64], out: &mut [i16])
    requires { MeansRequires n.now s.now out.old }
    ensures { out.new ≡ means_of n.now s.now out.old }
{
    let mut by = Reciprocal::new(1);
    for j in 0..out.len() {
        by = reciprocal_of(n[j], by);
        out[j] = mean(s[j], by);
    }
}
