// The mean at every cell: N and S of 16 rows at a time, and the mean of each of their cells.
#![tactic(auto)]

ghost use Rattle.std.specs.Prelude.{◌≡◌};
ghost use Rattle.spec_smoothing.specs.Smoothing.{smoothed};
ghost use Rattle.smoothing.specs.Requires.{SmoothRequires};
ghost use Rattle.spec_picture.specs.Checked.{given, checked_inputs};

use crate::means::row_means;
use row_session::blocks::next_block;
use spec_picture::{CheckedInputs, Plane};
use windows::clip;

// The means of every row of a picture alone, 16 rows after the other. The buffers are on the stack, since there is no heap: a row of either plane in counts and totals, and 16
// rows of its sums in n and s.
pub fn every_row(inputs: &CheckedInputs<'_>, out: &mut [i16])
    requires { SmoothRequires (checked_inputs inputs.now) out.old }
    ensures { out.new ≡ smoothed inputs.now.source.frame inputs.now.source.f.now (given inputs.now.window) }
{
    let rows = inputs.source.frame.rows;
    let columns = inputs.source.frame.columns;
    let ones = inputs.on_plane(Plane::One);
    let levels = inputs.on_plane(Plane::F);
    let mut counts = [0i64; 1024];
    let mut totals = [0i64; 1024];
    let mut n = [0i64; 16384];
    let mut s = [0i64; 16384];
    for block in 0..rows.div_ceil(16) {
        let i = 16 * block;
        next_block(i, &ones, &mut counts, &mut n);
        next_block(i, &levels, &mut totals, &mut s);
        let count = clip::high(i, 15, rows) - i;
        let start = i * columns;
        let end = start + count * columns;
        row_means(&n, &s, &mut out[start..end]);
    }
}
