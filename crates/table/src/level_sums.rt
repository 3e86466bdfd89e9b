// A row of the table from a row of levels and the row above: the loop that sums the levels as it reads them.
// For callers that have checked their inputs.
#![tactic(auto)]

ghost use Rattle.std.specs.Prelude.{◌≡◌, length};
ghost use Rattle.numbers.specs.Grid.{tabulate};
ghost use Rattle.table.specs.RowSums.{number, row_number};

use arithmetic::wrapping;

// A row of the table, from a row of levels and the row above it. Inlined, as its caller is: a call for each row made a table of a picture of one column take 1.4 times as long.
#[inline(always)]
pub fn next_levels(levels: &[i16], above: &[i64], row: &mut [i64])
    requires { (length levels.now ≡ length row.old) × (length above.now ≡ length row.old) }
    ensures { row.new ≡ tabulate (length row.old) (row_number above.now (number levels.now)) }
{
    let mut sum = 0i64;
    for j in 0..row.len() {
        sum = wrapping::wrapping_add(sum, i64::from(levels[j]));
        row[j] = wrapping::wrapping_add(above[j], sum);
    }
}
