// The slopes of a diamond's or hexagon's edges on the row where a call begins.

ghost use Rattle.std.specs.Prelude.{◌≡◌, ◌≤◌, length, map};
ghost use Rattle.numbers.specs.Grid.{tabulate};
ghost use Rattle.spec_picture.specs.Plane.{plane_number};
ghost use Rattle.slope_rows.specs.Edges.{StartRequires, Started, sum_by_slopes, FirstRowRequires};

use crate::kept_slopes::SlantedInputs;
use crate::padded_rows::load;
use crate::places::{FALLING_START, RISING_START, falling_cells, rising_cells};
use arithmetic::wrapping;
use slope_loops::loops;
use slope_loops::loops::Slope;
use slope_loops::padding::{ABOVE, ROW_LENGTH};

// The rows and the slopes are arrays apart here, and no struct: `slope_rows::edges::rows::rows_from` says why.

// The slopes of row i, h cells of each.
#[tactic(auto, unfolding(spec_picture::specs::Frame::frame_legal))]
pub fn start_slopes<S: Slope>(
    slanted: &SlantedInputs<'_>,
    i: usize,
    a: &mut [S::Value; ROW_LENGTH],
    b: &mut [S::Value; ROW_LENGTH],
    rises: &mut [S; ROW_LENGTH],
    falls: &mut [S; ROW_LENGTH],
)
    requires { S.Value.holds (plane_number slanted.now.inputs.source.plane) × StartRequires slanted.now i (map S.Value.value a.old) (map S.Value.value b.old) (map S.sum rises.old) (map S.sum falls.old) }
    ensures { Started slanted.now i (map S.Value.value a.new) (map S.Value.value b.new) (map S.sum rises.new) (map S.sum falls.new) }
{
    let h = slanted.height;
    let w = slanted.width;
    let n = slanted.inputs.source.frame.columns + slanted.beside;
    for t in 0..h {
        load(slanted, ABOVE + i + 1 + t, a);
        load(slanted, ABOVE + i - t, b);
        let far = w - t;
        loops::gather(a, b, n, rising_cells(far), rises);
        loops::gather(a, b, n, falling_cells(slanted.beside, far), falls);
    }
}

// The sums of row 0 from its first one, `first_sum`: nothing lies above the row, so from column to column the rising slopes are added and the falling ones subtracted. out is a copy.
pub fn first_row<S: Slope>(
    first_sum: i64,
    rises: &[S; ROW_LENGTH],
    falls: &[S; ROW_LENGTH],
    work: &mut [i64],
    out: &mut [i64],
)
    requires { FirstRowRequires (map S.sum rises.now) (map S.sum falls.now) work.old out.old }
    ensures { (work.new ≡ tabulate (length work.old) (sum_by_slopes first_sum (map S.sum rises.now) (map S.sum falls.now))) × (out.new ≡ tabulate (length work.old) (sum_by_slopes first_sum (map S.sum rises.now) (map S.sum falls.now))) }
{
    let mut sum = first_sum;
    for j in 0..work.len() {
        work[j] = sum;
        out[j] = sum;
        let change = wrapping::wrapping_sub(
            rises[j + RISING_START].to_i64(),
            falls[j + FALLING_START + 1].to_i64(),
        );
        sum = wrapping::wrapping_add(sum, change);
    }
}
