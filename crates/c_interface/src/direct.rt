// The C interface to the direct sum.

ghost use Rattle.spec_picture.specs.Window.{window};
ghost use Rattle.spec_picture.specs.Picture.{shift, inputs};
ghost use Rattle.spec_picture.specs.Direct.{direct_checks, direct_call};
ghost use Rattle.spec_c.specs.Frame.{frame_from};
ghost use Rattle.spec_c.specs.CResult.{with_value, c_result};
ghost use Rattle.spec_c.specs.Leaves.{CallLeaves};
ghost use Rattle.agreement.specs.Numbers.{NumberedBy};

use crate::frames;
use crate::results::hand_back;
use local_statistics::{Cell, Inputs, Shift, Source, Window, direct_sum};

// `direct_sum::direct_sum`: the sum of a plane over the window on a cell.
#[unsafe(no_mangle)]
pub extern "C" fn ls_direct_sum(
    rows: usize,
    columns: usize,
    columns_wrap: u32,
    f: &[i16],
    g: &[i16],
    shape: u32,
    first: i32,
    second: i32,
    down: i32,
    right: i32,
    plane: u32,
    row: usize,
    column: usize,
    sum: &mut i64,
) -> i32
    ensures leaves { CallLeaves (c_result with_value (direct_call (inputs (frame_from rows columns columns_wrap) f.now g.now (window shape first second) (shift down right) plane) row column)) sum.old result sum.new }
    ensures number { NumberedBy (direct_checks (inputs (frame_from rows columns columns_wrap) f.now g.now (window shape first second) (shift down right) plane) row column) result }
{
    let inputs = Inputs {
        source: Source {
            frame: frames::frame_from(rows, columns, columns_wrap),
            f,
            g,
            shift: Shift { down, right },
            plane,
        },
        window: Window {
            shape,
            first,
            second,
        },
    };
    hand_back(direct_sum(&inputs, Cell { row, column }), sum)
}
