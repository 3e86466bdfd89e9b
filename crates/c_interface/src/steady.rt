// The C interface to the search for the first steady cell.

ghost use Rattle.spec_picture.specs.Frame.{cell};
ghost use Rattle.spec_picture.specs.Window.{window};
ghost use Rattle.spec_picture.specs.Picture.{shift};
ghost use Rattle.spec_smoothing.specs.Steady.{steady_checks, steady_call};
ghost use Rattle.spec_c.specs.Frame.{frame_from};
ghost use Rattle.spec_c.specs.CResult.{c_result, of_cell};
ghost use Rattle.spec_c.specs.Leaves.{CallLeaves};
ghost use Rattle.agreement.specs.Numbers.{NumberedBy, refusal_status};

use crate::{frames, results};
use local_statistics::{Shift, Window, steady};

// `steady_search::steady`: the first steady cell in row order.
#[unsafe(no_mangle)]
pub extern "C" fn ls_steady(
    rows: usize,
    columns: usize,
    columns_wrap: u32,
    f: &[i16],
    g: &[i16],
    shape: u32,
    first: i32,
    second: i32,
    down: i32,
    right: i32,
    row: &mut usize,
    column: &mut usize,
) -> i32
    ensures leaves { CallLeaves (c_result of_cell (steady_call (frame_from rows columns columns_wrap) f.now g.now (window shape first second) (shift down right))) (cell row.old column.old) result (cell row.new column.new) }
    ensures number { NumberedBy (steady_checks (frame_from rows columns columns_wrap) f.now g.now (window shape first second) (shift down right)) (refusal_status result) }
{
    let frame = frames::frame_from(rows, columns, columns_wrap);
    let window = Window {
        shape,
        first,
        second,
    };
    let shift = Shift { down, right };
    results::found(steady(frame, f, g, window, shift), row, column)
}
