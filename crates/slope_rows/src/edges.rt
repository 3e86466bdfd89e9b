// Many rows of a diamond's or hexagon's window sums, at a cost that does not grow with the window: the slopes of its edges are kept from row to row. Planes 0, 1
// and 2, whose values are ones and levels, have rows of 16 bits and slopes of 32; the others rows and slopes of 64.

ghost use Rattle.std.specs.Prelude.{suc};
ghost use Rattle.spec_picture.specs.Window.{shape_of};
ghost use Rattle.spec_picture.specs.Checked.{given};
ghost use Rattle.spec_rows.specs.Rows.{strip, Advanced};
ghost use Rattle.slope_rows.specs.Edges.{plane_in, SlopeRowsRequires, FreshRequires};

use crate::kept_slopes::SlantedInputs;
use rows::rows_from;

mod rows; // rows.rt: rows of any width

// n rows after row i, of which the work area has the sums.
pub fn rows_by_slopes(
    slanted: &SlantedInputs<'_>,
    i: usize,
    n: usize,
    work: &mut [i64],
    out: &mut [i64],
)
    requires { SlopeRowsRequires slanted.now i n work.old out.old }
    ensures { Advanced (strip slanted.now.inputs.source.frame (plane_in slanted.now) (shape_of (given slanted.now.inputs.window)) (suc i) n work.old) work.new out.new }
{
    if slanted.inputs.source.plane.is_narrow() {
        rows_from::<i32>(false, slanted, i, n, work, out);
    } else {
        rows_from::<i64>(false, slanted, i, n, work, out);
    }
}

// The first n rows, of a plane of ones or levels.
pub fn top_rows_by_slopes(slanted: &SlantedInputs<'_>, n: usize, work: &mut [i64], out: &mut [i64])
    requires { FreshRequires slanted.now n work.old out.old }
    ensures { Advanced (strip slanted.now.inputs.source.frame (plane_in slanted.now) (shape_of (given slanted.now.inputs.window)) 0 n work.old) work.new out.new }
{
    rows_from::<i32>(true, slanted, 0, n - 1, work, out);
}
