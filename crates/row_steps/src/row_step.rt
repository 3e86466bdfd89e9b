// The work area from row to row, and the output row that it gives.

ghost use Rattle.std.specs.Prelude.{◌≡◌, length};
ghost use Rattle.spec_picture.specs.Window.{shape_of};
ghost use Rattle.spec_picture.specs.Picture.{plane_at};
ghost use Rattle.spec_picture.specs.Checked.{given, checked_source, checked_inputs};
ghost use Rattle.spec_rows.specs.Rows.{work_after, output_row};
ghost use Rattle.row_steps.specs.RowStepRequires.{OutputRequires};
ghost use Rattle.row_steps.specs.Requires.{StepRequires};

use crate::first_rows::rectangle;
use crate::{first_rows, slanted, step};
use row_loops::sliding_sums;
use spec_picture::{CheckedInputs, CheckedWindow, Frame};
use windows::shape;

// The work area moves on to the row at a position: at position 0 it is not read. The buffer for a row is used on the way.
fn move_work_area(position: usize, inputs: &CheckedInputs<'_>, work: &mut [i64], row: &mut [i64])
    requires { StepRequires (checked_inputs inputs.now) position work.old row.old }
    ensures { work.new ≡ work_after inputs.now.source.frame (plane_at (checked_source inputs.now.source)) (shape_of (given inputs.now.window)) position work.old }
{
    let above = position.checked_sub(1);
    match (shape::is_rectangle(inputs.window), above) {
        (true, None) => rectangle::column_sums(&inputs.source, shape::height(inputs.window), work),
        (true, Some(i)) => {
            step::enter_and_leave_at(&inputs.source, i, shape::height(inputs.window), work);
        }
        (false, None) => first_rows::first_row(inputs, work, row),
        (false, Some(i)) => slanted::next_slanted_row(inputs, i, work, row),
    }
}

// The work area is copied. A loop, since the library's copy calls C's memmove.
fn copy(work: &[i64], out: &mut [i64])
    requires { length work.now ≡ length out.old }
    ensures { out.new ≡ work.now }
{
    for j in 0..out.len() {
        out[j] = work[j];
    }
}

// The output row: of a rectangle the sums across the work area, of the others the work area.
fn write_output(frame: Frame, window: CheckedWindow, work: &[i64], out: &mut [i64])
    requires { OutputRequires frame (shape_of (given window)) work.now out.old }
    ensures { out.new ≡ output_row frame (shape_of (given window)) work.now }
{
    if shape::is_rectangle(window) {
        sliding_sums::neighbour_sums(frame.columns_wrap, work, shape::width(window), out);
    } else {
        copy(work, out);
    }
}

// The work area moves on to the row at a position, and out is its output row.
pub fn next_row(position: usize, inputs: &CheckedInputs<'_>, work: &mut [i64], out: &mut [i64])
    requires { StepRequires (checked_inputs inputs.now) position work.old out.old }
    ensures work { work.new ≡ work_after inputs.now.source.frame (plane_at (checked_source inputs.now.source)) (shape_of (given inputs.now.window)) position work.old }
    ensures out { out.new ≡ output_row inputs.now.source.frame (shape_of (given inputs.now.window)) (work_after inputs.now.source.frame (plane_at (checked_source inputs.now.source)) (shape_of (given inputs.now.window)) position work.old) }
{
    move_work_area(position, inputs, work, out);
    write_output(inputs.source.frame, inputs.window, work, out);
}
