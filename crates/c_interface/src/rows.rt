// The C interface to the row session.

ghost use Rattle.spec_picture.specs.Window.{window};
ghost use Rattle.spec_picture.specs.Picture.{shift, inputs};
ghost use Rattle.spec_rows.specs.Rows.{row_checks, row_call};
ghost use Rattle.spec_c.specs.Frame.{frame_from};
ghost use Rattle.spec_c.specs.Leaves.{RowCallLeaves};
ghost use Rattle.agreement.specs.Numbers.{NumberedBy};

use crate::frames;
use crate::results::hand_back;
use local_statistics::{Inputs, Shift, Source, Window, rows_plain};

// `row_session::rows_plain`: the sums of the next rows of a session, which in C is its position alone.
#[unsafe(no_mangle)]
pub extern "C" fn ls_rows(
    position: &mut usize,
    rows: usize,
    columns: usize,
    columns_wrap: u32,
    f: &[i16],
    g: &[i16],
    shape: u32,
    first: i32,
    second: i32,
    down: i32,
    right: i32,
    plane: u32,
    request: usize,
    work: &mut [i64],
    out: &mut [i64],
    granted: &mut usize,
) -> i32
    ensures leaves { RowCallLeaves (row_call (inputs (frame_from rows columns columns_wrap) f.now g.now (window shape first second) (shift down right) plane) position.old request work.old out.old) granted.old result granted.new position.new work.new out.new }
    ensures number { NumberedBy (row_checks (inputs (frame_from rows columns columns_wrap) f.now g.now (window shape first second) (shift down right) plane) position.old request work.old out.old) result }
{
    let inputs = Inputs {
        source: Source {
            frame: frames::frame_from(rows, columns, columns_wrap),
            f,
            g,
            shift: Shift { down, right },
            plane,
        },
        window: Window {
            shape,
            first,
            second,
        },
    };
    hand_back(rows_plain(&inputs, position, request, work, out), granted)
}
