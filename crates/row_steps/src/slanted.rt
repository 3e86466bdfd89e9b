// A diamond's or hexagon's window sums from one row to the next: the cells on its lower edge enter, and those on its upper edge leave.

ghost use Rattle.std.specs.Prelude.{◌≡◌, pos, ◌+ℤ◌, get_or, suc, min};
ghost use Rattle.numbers.specs.Grid.{tabulate};
ghost use Rattle.numbers.specs.Wrap.{wrap};
ghost use Rattle.spec_picture.specs.Window.{shape_of, width};
ghost use Rattle.spec_picture.specs.Picture.{plane_at};
ghost use Rattle.spec_picture.specs.Checked.{given, checked_source, checked_inputs};
ghost use Rattle.row_steps.specs.Edges.{edge_change, edges_to};
ghost use Rattle.row_steps.specs.SlantedRequires.{EdgeRequires};
ghost use Rattle.row_steps.specs.Requires.{StepRequires};

use crate::step;
use spec_picture::CheckedInputs;
use windows::{clip, reaches, shape};

// From row i to i+1, the cells in the columns at distance c, which is at least 1, from each column: those on its left are added to the columns after, and those on its right
// to the columns before. Where columns wrap, those at the end of the row are added to the first columns too, and those at its beginning to the last.
fn edge(inputs: &CheckedInputs<'_>, i: usize, c: usize, work: &mut [i64], row: &mut [i64])
    requires { EdgeRequires (checked_inputs inputs.now) i c work.old row.old }
    ensures { work.new ≡ tabulate inputs.now.source.frame.columns (λ j. wrap (get_or work.old j (pos 0) +ℤ edge_change inputs.now.source.frame (plane_at (checked_source inputs.now.source)) (shape_of (given inputs.now.window)) i c j)) }
{
    let columns = inputs.source.frame.columns;
    let n = columns - c;
    step::step_difference(&inputs.source, i, reaches::depth(inputs.window, c), row);
    step::add(&mut work[c..columns], &row[..n]);
    step::add(&mut work[0..n], &row[c..columns]);
    if inputs.source.frame.columns_wrap {
        step::add(&mut work[0..c], &row[n..columns]);
        step::add(&mut work[n..columns], &row[..c]);
    }
}

// From row i to i+1.
pub fn next_slanted_row(inputs: &CheckedInputs<'_>, i: usize, work: &mut [i64], row: &mut [i64])
    requires { StepRequires (checked_inputs inputs.now) i work.old row.old }
    ensures { work.new ≡ edges_to inputs.now.source.frame (plane_at (checked_source inputs.now.source)) (shape_of (given inputs.now.window)) i work.old (min (suc (width (shape_of (given inputs.now.window)))) inputs.now.source.frame.columns) }
{
    let columns = inputs.source.frame.columns;
    let end = clip::high(0, shape::width(inputs.window), columns);
    step::enter_and_leave_at(&inputs.source, i, reaches::depth(inputs.window, 0), work);
    for c in 1..end {
        edge(inputs, i, c, work, row);
    }
}
