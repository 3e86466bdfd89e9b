// The C interface to the cumulative table.

ghost use Rattle.std.specs.Prelude.{◌≡◌};
ghost use Rattle.spec_picture.specs.Window.{window};
ghost use Rattle.spec_picture.specs.Picture.{shift, source};
ghost use Rattle.spec_table.specs.Table.{build_checks, build_call, read_checks, read_call};
ghost use Rattle.spec_c.specs.Frame.{frame_from};
ghost use Rattle.spec_c.specs.CResult.{with_value, status, c_result};
ghost use Rattle.spec_c.specs.Leaves.{CallLeaves};
ghost use Rattle.agreement.specs.Numbers.{NumberedBy};

use crate::frames;
use crate::results::{done, hand_back};
use local_statistics::{Cell, Shift, Source, Window, build, read};

// `table::build`: fills the area with the cumulative table of a plane.
#[unsafe(no_mangle)]
pub extern "C" fn ls_build(
    rows: usize,
    columns: usize,
    columns_wrap: u32,
    f: &[i16],
    g: &[i16],
    down: i32,
    right: i32,
    plane: u32,
    table: &mut [i64],
) -> i32
    ensures status { result ≡ status (c_result with_value (build_call (source (frame_from rows columns columns_wrap) f.now g.now (shift down right) plane) table.old).answer) }
    ensures area { table.new ≡ (build_call (source (frame_from rows columns columns_wrap) f.now g.now (shift down right) plane) table.old).area }
    ensures number { NumberedBy (build_checks (source (frame_from rows columns columns_wrap) f.now g.now (shift down right) plane) table.old) result }
{
    let source = Source {
        frame: frames::frame_from(rows, columns, columns_wrap),
        f,
        g,
        shift: Shift { down, right },
        plane,
    };
    done(build(&source, table))
}

// `table::read`: the window sum on a cell, by the corners of a table with any contents.
#[unsafe(no_mangle)]
pub extern "C" fn ls_read(
    rows: usize,
    columns: usize,
    columns_wrap: u32,
    table: &[i64],
    shape: u32,
    first: i32,
    second: i32,
    row: usize,
    column: usize,
    sum: &mut i64,
) -> i32
    ensures leaves { CallLeaves (c_result with_value (read_call (frame_from rows columns columns_wrap) table.now (window shape first second) row column)) sum.old result sum.new }
    ensures number { NumberedBy (read_checks (frame_from rows columns columns_wrap) table.now (window shape first second) row column) result }
{
    let frame = frames::frame_from(rows, columns, columns_wrap);
    let window = Window {
        shape,
        first,
        second,
    };
    hand_back(read(frame, table, window, Cell { row, column }), sum)
}
