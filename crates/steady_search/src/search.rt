// The first steady cell: N, S and A of 16 rows at a time, and the first of their cells whose voice answer is Steady.
#![tactic(auto)]

ghost use Rattle.std.specs.Prelude.{◌≡◌};
ghost use Rattle.spec_picture.specs.Answers.{option_of};
ghost use Rattle.spec_picture.specs.Checked.{checked_inputs};
ghost use Rattle.spec_smoothing.specs.Steady.{first_steady};

use crate::steady_cells;
use row_session::blocks::next_block;
use spec_picture::{Cell, CheckedInputs, Plane};
use windows::clip;

// "the first cell in row order whose voice answer is Steady", 16 rows after the other. The buffers are on the stack, since there is no heap: a row of each plane in counts, totals
// and squares, and 16 rows of its sums in n, s and a.
pub fn by_blocks(inputs: &CheckedInputs<'_>) -> Option<Cell>
    ensures { option_of result ≡ first_steady (checked_inputs inputs.now) }
{
    let rows = inputs.source.frame.rows;
    let columns = inputs.source.frame.columns;
    let ones = inputs.on_plane(Plane::One);
    let levels = inputs.on_plane(Plane::F);
    let level_squares = inputs.on_plane(Plane::FSquared);
    let mut counts = [0i64; 1024];
    let mut totals = [0i64; 1024];
    let mut squares = [0i64; 1024];
    let mut n = [0i64; 16384];
    let mut s = [0i64; 16384];
    let mut a = [0i64; 16384];
    for block in 0..rows.div_ceil(16) {
        let i = 16 * block;
        next_block(i, &ones, &mut counts, &mut n);
        next_block(i, &levels, &mut totals, &mut s);
        next_block(i, &level_squares, &mut squares, &mut a);
        let count = clip::high(i, 15, rows) - i;
        if let Some(cell) = steady_cells::first_steady_cell(count, columns, &n, &s, &a) {
            return Some(Cell {
                row: i + cell.row,
                column: cell.column,
            });
        }
    }
    None
}
