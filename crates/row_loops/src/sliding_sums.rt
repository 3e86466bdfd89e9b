// The sliding sum across a row: one loop over what enters and what leaves, which knows nothing of where the row ends and whether it goes round. It runs once for each kind of
// column.
// For callers that have checked their inputs.

ghost use Rattle.std.specs.Prelude.{◌≡◌, ◌≤◌, ◌+◌, ◌*◌, T, true, false, length, get_or, pos};
ghost use Rattle.numbers.specs.Grid.{tabulate};
ghost use Rattle.numbers.specs.Sum.{sum_to};
ghost use Rattle.numbers.specs.Wrap.{wrap};
ghost use Rattle.row_loops.specs.SlidingSums.{neighbour_sum, Slid};

use arithmetic::wrapping;

// The wrapped sum of the first n numbers.
fn total(work: &[i64], n: usize) -> i64
    requires { n ≤ length work.now }
    ensures { result ≡ wrap (sum_to n (λ k. get_or work.now k (pos 0))) }
{
    let mut s = 0i64;
    for k in 0..n {
        s = wrapping::wrapping_add(s, work[k]);
    }
    s
}

// The number at place k, and 0 past the row's end.
fn number(row: &[i64], k: usize) -> i64
    ensures { result ≡ get_or row.now k (pos 0) }
{
    if k < row.len() { row[k] } else { 0 }
}

// out[k] is the sum and what entered less what left up to place k; the answer is the last of them. The difference of the two waits for no sum, so that a place costs one
// addition after the other. Inlined, since the compiler sees at each call that a row is as long as out or has no number, and drops the tests of `number`.
#[inline(always)]
fn slide(enter: &[i64], leave: &[i64], sum: i64, out: &mut [i64]) -> i64
    ensures { Slid enter.now leave.now sum out.old out.new result }
{
    let mut s = sum;
    for k in 0..out.len() {
        let change = wrapping::wrapping_sub(number(enter, k), number(leave, k));
        s = wrapping::wrapping_add(s, change);
        out[k] = s;
    }
    s
}

// The sums where columns clip: out[j] is the wrapped sum of work[j - b ..= j + b], as far as the row goes.
fn clipped_sums(work: &[i64], b: usize, out: &mut [i64])
    requires { length out.old ≡ length work.now }
    ensures { out.new ≡ tabulate (length work.now) (neighbour_sum false work.now b) }
{
    let n = work.len();
    let reach = b.min(n);
    // The first column that no number enters, and the first that one leaves.
    let enters = n - reach;
    let leaves = (reach + 1).min(n);
    let low = enters.min(leaves);
    let high = enters.max(leaves);
    // How many columns a number enters and one leaves. If any, they are between low and high; otherwise the columns there keep the sum.
    let both = enters - low;
    let s = total(work, reach);
    let s = slide(&work[reach..reach + low], &[], s, &mut out[0..low]);
    let s = slide(&work[n - both..], &work[..both], s, &mut out[low..enters]);
    let s = slide(&[], &[], s, &mut out[enters..high]);
    slide(&[], &work[both..both + (n - high)], s, &mut out[high..n]);
}

// The sums where columns wrap: a number enters and one leaves at every column.
fn round_sums(work: &[i64], b: usize, out: &mut [i64])
    requires { (length out.old ≡ length work.now) × (2 * b + 1 ≤ length work.now) }
    ensures { out.new ≡ tabulate (length work.now) (neighbour_sum true work.now b) }
{
    let n = work.len();
    // The first column at which the number that leaves is not at the row's end, and the first at which the number that enters is at its beginning.
    let low = b + 1;
    let high = n - b;
    let both = high - low;
    // The sum of the column before the first, which is the last one.
    let s = wrapping::wrapping_add(total(work, b), total(&work[n - low..], low));
    let s = slide(&work[b..b + low], &work[n - low..], s, &mut out[0..low]);
    let s = slide(&work[n - both..], &work[..both], s, &mut out[low..high]);
    slide(&work[..b], &work[both..both + b], s, &mut out[high..n]);
}

// The sums of a row's neighbours: out[j] is the wrapped sum of the numbers at most b columns from column j. Where columns wrap, the last column is beside the first, and no
// column is reached from both sides.
pub fn neighbour_sums(wraps: bool, work: &[i64], b: usize, out: &mut [i64])
    requires { (length out.old ≡ length work.now) × (T wraps → 2 * b + 1 ≤ length work.now) }
    ensures { out.new ≡ tabulate (length work.now) (neighbour_sum wraps work.now b) }
{
    if wraps {
        round_sums(work, b, out);
    } else {
        clipped_sums(work, b, out);
    }
}
