// Building the table, one pass over the picture: a row of ones or levels after the first is summed as it is read; a row of products is written where the table's
// is to be, and summed there.
// For callers that have checked their inputs.
#![tactic(auto)]

ghost use Rattle.std.specs.Prelude.{◌≡◌, length};
ghost use Rattle.numbers.specs.Grid.{tabulate};
ghost use Rattle.spec_picture.specs.Frame.{cells};
ghost use Rattle.spec_picture.specs.Picture.{plane_at};
ghost use Rattle.spec_picture.specs.Checked.{checked_source};
ghost use Rattle.table.specs.RowSums.{row_number};
ghost use Rattle.spec_table.specs.Table.{table_of};
ghost use Rattle.table.specs.Fill.{TableRowRequires};

use crate::level_sums::next_levels;
use crate::row_sums::{first_row, next_row};
use plane_rows::factors::{Factors, factors_of};
use plane_rows::level_rows::{copied, own_row};
use plane_rows::planes;
use plane_rows::view::view_of;
use spec_picture::CheckedSource;

// Row i of the table, from the row above it; a row of ones or levels may be copied into the buffer. Inlined, so that what the loop does not change is found once.
#[inline(always)]
fn table_row(
    source: &CheckedSource<'_>,
    i: usize,
    above: &[i64],
    buffer: &mut [i16],
    row: &mut [i64],
)
    requires { TableRowRequires source.now.frame i above.now buffer.old row.old }
    ensures { row.new ≡ tabulate source.now.frame.columns (row_number above.now (plane_at (checked_source source.now) i)) }
{
    let view = view_of(source);
    let Factors::Level(factor) = factors_of(source.plane) else {
        planes::plane_row(source, i, row);
        next_row(above, row);
        return;
    };
    match own_row(&view, factor, i) {
        Some(levels) => next_levels(levels, above, row),
        None => {
            copied(&view, factor, i, buffer);
            next_levels(buffer, above, row);
        }
    }
}

// The whole table, row by row.
pub fn fill_table(source: &CheckedSource<'_>, table: &mut [i64])
    requires { length table.old ≡ cells source.now.frame }
    ensures { table.new ≡ table_of (checked_source source.now) }
{
    let columns = source.frame.columns;
    // A buffer for the widest row, since there is no heap.
    let mut levels = [0i16; 1024];
    let first = &mut table[..columns];
    planes::plane_row(source, 0, first);
    first_row(first);
    for i in 1..source.frame.rows {
        let (before, rest) = table.split_at_mut(i * columns);
        let above = &before[(i - 1) * columns..];
        table_row(
            source,
            i,
            above,
            &mut levels[..columns],
            &mut rest[..columns],
        );
    }
}
