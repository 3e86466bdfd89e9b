// Rows of any width: their values, and the slopes that are made of them.
ghost use Rattle.std.specs.Prelude.{suc, map};
ghost use Rattle.spec_picture.specs.Window.{shape_of};
ghost use Rattle.spec_picture.specs.Checked.{given, checked_inputs};
ghost use Rattle.spec_rows.specs.Rows.{strip, Advanced};
ghost use Rattle.slope_rows.specs.Edges.{plane_in, AfterRequires, TopRequires, TopDone, FromRequires, FromDone};

use crate::kept_slopes::SlantedInputs;
use crate::next_row;
use crate::padded_rows::load;
use crate::places::CallRow;
use crate::slope_starts::{first_row, start_slopes};
use direct_sum::window_sums;
use slope_loops::loops::Slope;
use slope_loops::padding::{ABOVE, PlaneValue, ROW_LENGTH};
use spec_picture::Cell;

// The rows and the slopes are arrays apart here, and no struct: `rows_from` says why.

// So many rows of the picture after one of its rows.
#[derive(Clone, Copy)]
pub struct RowsAfter {
    pub row: usize,
    pub count: usize,
}

// Rows after a row, from the slopes of that row; c has the row that leaves in the middle.
fn rows_after<S: Slope>(
    slanted: &SlantedInputs<'_>,
    rows: RowsAfter,
    a: &mut [S::Value; ROW_LENGTH],
    b: &mut [S::Value; ROW_LENGTH],
    c: &mut [S::Value; ROW_LENGTH],
    rises: &mut [S; ROW_LENGTH],
    falls: &mut [S; ROW_LENGTH],
    work: &mut [i64],
    out: &mut [i64],
)
    requires { AfterRequires S.Value.holds slanted.now rows (map S.Value.value a.old) (map S.Value.value b.old) (map S.Value.value c.old) (map S.sum rises.old) (map S.sum falls.old) work.old out.old }
    ensures { Advanced (strip slanted.now.inputs.source.frame (plane_in slanted.now) (shape_of (given slanted.now.inputs.window)) (suc rows.row) rows.count work.old) work.new out.new }
{
    let columns = slanted.inputs.source.frame.columns;
    for m in 0..rows.count {
        let begin = m * columns;
        let end = begin + columns;
        let here = CallRow {
            row: rows.row + m,
            moved: m,
        };
        next_row(
            slanted,
            here,
            a,
            b,
            c,
            rises,
            falls,
            work,
            &mut out[begin..end],
        );
    }
}

// Where the rows are fresh, row 0 by its slopes: its sums, and its row at the front of out. The answer is the place after it.
fn top_row<S: Slope>(
    fresh: bool,
    slanted: &SlantedInputs<'_>,
    rises: &[S; ROW_LENGTH],
    falls: &[S; ROW_LENGTH],
    work: &mut [i64],
    out: &mut [i64],
) -> usize
    requires { TopRequires slanted.now fresh (map S.sum rises.now) (map S.sum falls.now) work.old out.old }
    ensures { TopDone (checked_inputs slanted.now.inputs) fresh work.old work.new out.new result }
{
    if !fresh {
        return 0;
    }
    let columns = slanted.inputs.source.frame.columns;
    let first_cell = Cell { row: 0, column: 0 };
    let sum = window_sums::sum(&slanted.inputs, first_cell);
    first_row(sum, rises, falls, work, &mut out[..columns]);
    columns
}

// n rows after row i, and row 0 before them where they are fresh.
// One function for both, which the flag tells apart: with two callers of the loops the compiler did not put them where the arrays are made, and 256 rows over a diamond
// of 2 took 1.65 times as long.
// The rows and slopes are five arrays, for the widest row with its margins, since there is no heap, and no struct: over the fields of one the loops took 1.1 times as long or more, as the compiler does not see that they lie apart.
pub fn rows_from<S: Slope>(
    fresh: bool,
    slanted: &SlantedInputs<'_>,
    i: usize,
    n: usize,
    work: &mut [i64],
    out: &mut [i64],
)
    requires { FromRequires S.Value.holds slanted.now fresh i n work.old out.old }
    ensures { FromDone (checked_inputs slanted.now.inputs) fresh i n work.old work.new out.new }
{
    let mut a = [S::Value::zero(); ROW_LENGTH];
    let mut b = [S::Value::zero(); ROW_LENGTH];
    let mut c = [S::Value::zero(); ROW_LENGTH];
    let mut rises = [S::zero(); ROW_LENGTH];
    let mut falls = [S::zero(); ROW_LENGTH];
    start_slopes(slanted, i, &mut a, &mut b, &mut rises, &mut falls);
    load(slanted, ABOVE + i - slanted.height, &mut c);
    let begin = top_row(fresh, slanted, &rises, &falls, work, out);
    let rows = RowsAfter { row: i, count: n };
    rows_after(
        slanted,
        rows,
        &mut a,
        &mut b,
        &mut c,
        &mut rises,
        &mut falls,
        work,
        &mut out[begin..],
    );
}
