// The table's rows, each from the plane's row in its place: loops over one row.
// For callers that have checked their inputs.
#![tactic(auto)]

ghost use Rattle.std.specs.Prelude.{◌≡◌, [], length};
ghost use Rattle.numbers.specs.Grid.{tabulate};
ghost use Rattle.table.specs.RowSums.{number, row_number};

use arithmetic::wrapping;

// The table's first row, from the plane's in its place: the running sums. Apart from `next_row`, since there is no row above to read, and one of zeros
// would want an area for it.
pub fn first_row(row: &mut [i64])
    ensures { row.new ≡ tabulate (length row.old) (row_number [] (number row.old)) }
{
    let mut sum = 0i64;
    for j in 0..row.len() {
        sum = wrapping::wrapping_add(sum, row[j]);
        row[j] = sum;
    }
}

// A later row of the table, from the plane's in its place and the row above it. Levels have a loop of their own, in `level_sums`, which widens each as it
// reads it: a closure for both would cost a record of what it asks and gives, for two loops.
pub fn next_row(above: &[i64], row: &mut [i64])
    requires { length above.now ≡ length row.old }
    ensures { row.new ≡ tabulate (length row.old) (row_number above.now (number row.old)) }
{
    let mut sum = 0i64;
    for j in 0..row.len() {
        sum = wrapping::wrapping_add(sum, row[j]);
        row[j] = wrapping::wrapping_add(above[j], sum);
    }
}
