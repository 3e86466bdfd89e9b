// The work area on row 0: a diamond's or hexagon's window sums, one row of the window after the other, and a rectangle's column sums.

ghost use Rattle.std.specs.Prelude.{◌≡◌, leb, pos, ◌+ℤ◌, get_or};
ghost use Rattle.numbers.specs.Grid.{tabulate};
ghost use Rattle.numbers.specs.Sum.{sum_to, pick};
ghost use Rattle.numbers.specs.Wrap.{wrap};
ghost use Rattle.spec_picture.specs.Frame.{column_gap};
ghost use Rattle.spec_picture.specs.Window.{shape_of, reach};
ghost use Rattle.spec_picture.specs.Picture.{plane_at};
ghost use Rattle.spec_picture.specs.Checked.{given, checked_source, checked_inputs};
ghost use Rattle.spec_picture.specs.Direct.{direct_sum};
ghost use Rattle.row_steps.specs.FirstRowsRequires.{FirstRequires, ReachRequires};

use crate::step;
use plane_rows::{plane_values, planes};
use row_loops::sliding_sums;
use spec_picture::CheckedInputs;
use windows::{clip, reaches, shape};

pub mod rectangle; // rectangle.rt: a rectangle's column sums of row 0

// Row m of the plane is added to the work area, each cell as far to both sides as the window on row 0 reaches there. Two buffers for a row are used on the way.
fn reaching(
    inputs: &CheckedInputs<'_>,
    m: usize,
    work: &mut [i64],
    row: &mut [i64],
    cells: &mut [i64],
)
    requires { ReachRequires (checked_inputs inputs.now) m work.old row.old cells.old }
    ensures { work.new ≡ tabulate inputs.now.source.frame.columns (λ j. wrap (get_or work.old j (pos 0) +ℤ sum_to inputs.now.source.frame.columns (λ n. pick (leb (column_gap inputs.now.source.frame j n) (reach (shape_of (given inputs.now.window)) m)) (plane_at (checked_source inputs.now.source) m n)))) }
{
    let k = reaches::reach(inputs.window, m);
    planes::plane_row(&inputs.source, m, cells);
    sliding_sums::neighbour_sums(inputs.source.frame.columns_wrap, cells, k, row);
    step::add(work, row);
}

// Row 0: the window sums, one row of the window after the other.
pub fn first_row(inputs: &CheckedInputs<'_>, work: &mut [i64], row: &mut [i64])
    requires { FirstRequires (checked_inputs inputs.now) work.old row.old }
    ensures { work.new ≡ tabulate inputs.now.source.frame.columns (direct_sum (checked_inputs inputs.now) 0) }
{
    let columns = inputs.source.frame.columns;
    let end = clip::high(0, shape::height(inputs.window), inputs.source.frame.rows);
    // A buffer for the widest row, since there is no heap.
    let mut cells = [0i64; 1024];
    plane_values::fill(work, 0);
    for m in 0..end {
        reaching(inputs, m, work, row, &mut cells[..columns]);
    }
}
