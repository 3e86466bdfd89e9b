// Many rows: the work area moves on row by row, and each row's sums go to the output area.

ghost use Rattle.spec_picture.specs.Window.{shape_of};
ghost use Rattle.spec_picture.specs.Picture.{plane_at};
ghost use Rattle.spec_picture.specs.Checked.{given, checked_source, checked_inputs};
ghost use Rattle.spec_rows.specs.Rows.{strip, Advanced};
ghost use Rattle.row_session.specs.Requires.{RowsRequires, SomeRowsRequires};

use row_steps::row_step;
use slope_rows::kept_slopes::SlantedInputs;
use slope_rows::{edges, kept_slopes};
use spec_picture::CheckedInputs;
use windows::choose_method;

// n rows from a position on, one after the other.
fn one_by_one(
    position: usize,
    inputs: &CheckedInputs<'_>,
    n: usize,
    work: &mut [i64],
    out: &mut [i64],
)
    requires { RowsRequires (checked_inputs inputs.now) position n work.old out.old }
    ensures { Advanced (strip inputs.now.source.frame (plane_at (checked_source inputs.now.source)) (shape_of (given inputs.now.window)) position n work.old) work.new out.new }
{
    let columns = inputs.source.frame.columns;
    for k in 0..n {
        let start = k * columns;
        let end = start + columns;
        row_step::next_row(position + k, inputs, work, &mut out[start..end]);
    }
}

// The same over a window that is no rectangle, by the slopes of its edges; a row at position 0 is computed by itself.
fn by_edges(
    position: usize,
    slanted: &SlantedInputs<'_>,
    n: usize,
    work: &mut [i64],
    out: &mut [i64],
)
    requires { SomeRowsRequires (checked_inputs slanted.now.inputs) position n work.old out.old }
    ensures { Advanced (strip slanted.now.inputs.source.frame (plane_at (checked_source slanted.now.inputs.source)) (shape_of (given slanted.now.inputs.window)) position n work.old) work.new out.new }
{
    if position == 0 {
        let columns = slanted.inputs.source.frame.columns;
        row_step::next_row(0, &slanted.inputs, work, &mut out[..columns]);
        edges::rows_by_slopes(slanted, 0, n - 1, work, &mut out[columns..]);
        return;
    }
    edges::rows_by_slopes(slanted, position - 1, n, work, out);
}

// n rows from a position on.
pub fn next_rows(
    position: usize,
    inputs: &CheckedInputs<'_>,
    n: usize,
    work: &mut [i64],
    out: &mut [i64],
)
    requires { RowsRequires (checked_inputs inputs.now) position n work.old out.old }
    ensures { Advanced (strip inputs.now.source.frame (plane_at (checked_source inputs.now.source)) (shape_of (given inputs.now.window)) position n work.old) work.new out.new }
{
    if let Some(slanted) = kept_slopes::slanted(inputs) {
        if choose_method::top_by_slopes(position, inputs.window, inputs.source.plane, n) {
            edges::top_rows_by_slopes(&slanted, n, work, out);
            return;
        }
        if choose_method::by_slopes(inputs.window, n) {
            by_edges(position, &slanted, n, work, out);
            return;
        }
    }
    one_by_one(position, inputs, n, work, out);
}
