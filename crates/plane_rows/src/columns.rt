// Which columns count under a shift, and where the columns of g are that belong to them: one stretch of columns, and where columns wrap one more.
// For callers that have checked their inputs.

ghost use Rattle.std.specs.Prelude.{◌≡◌, ◌≤◌, ◌%◌};
ghost use Rattle.spec_picture.specs.Frame.{remainder};
ghost use Rattle.plane_rows.specs.Columns.{Wrapping};

use crate::overlaps::{Overlap, overlap_of};
use spec_picture::Frame;

// The columns that count, in two stretches that join at a seam: `along` up to the seam, and `round` from there on, which goes on from the first column of g.
// Where columns clip there is none past the seam.
#[derive(Clone, Copy)]
pub struct Columns {
    pub along: Overlap,
    pub round: Overlap,
}

// The remainder of k by n. Most shifts are shorter than a row, and ask for no division.
fn rest(k: usize, n: usize) -> usize
    requires { 1 ≤ n }
    ensures { result ≡ k % n }
{
    if k < n { k } else { k % n }
}

// The remainder of a shift by n, from 0 to n - 1: where the column of g is that belongs to column 0.
fn remainder_of(n: usize, by: i32) -> usize
    requires { 1 ≤ n }
    ensures { result ≡ remainder n by }
{
    let far = by.unsigned_abs() as usize;
    if by < 0 {
        return n - 1 - rest(far - 1, n);
    }
    rest(far, n)
}

// Which columns count where those of g are shifted by `by`: "A counting cell of g is found at the wrapped column."
#[inline(always)]
pub fn columns_of(frame: Frame, by: i32) -> Columns
    requires { 1 ≤ frame.columns }
    ensures { Wrapping frame by result }
{
    let n = frame.columns;
    if !frame.columns_wrap {
        let along = overlap_of(n, by);
        let end = along.end;
        let round = Overlap {
            first: end,
            end,
            first_in_g: 0,
        };
        return Columns { along, round };
    }
    let ahead = remainder_of(n, by);
    let seam = n - ahead;
    Columns {
        along: Overlap {
            first: 0,
            end: seam,
            first_in_g: ahead,
        },
        round: Overlap {
            first: seam,
            end: n,
            first_in_g: 0,
        },
    }
}
