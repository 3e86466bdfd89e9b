// From one row to the next at one half height: the row of a plane that enters, and the row that leaves.
ghost use Rattle.std.specs.Prelude.{◌≡◌, pos, ◌+ℤ◌, length, get_or};
ghost use Rattle.numbers.specs.Grid.{tabulate};
ghost use Rattle.numbers.specs.Wrap.{wrap};
ghost use Rattle.spec_picture.specs.Picture.{plane_at};
ghost use Rattle.spec_picture.specs.Checked.{checked_source};
ghost use Rattle.spec_rows.specs.Rows.{enter_leave};
ghost use Rattle.row_steps.specs.Requires.{RowRequires};

use plane_rows::plane_values;
use row_loops::enter_and_leave::enter_and_leave;
use row_loops::entering_loops::add_each;
use spec_picture::CheckedSource;

// From row i to i+1, at half height d: the row d rows below enters the sums, and the row d rows above, if there is one, leaves them. Past the picture's last row no cell
// counts, so that row leaves in the place of one that is not there.
pub fn enter_and_leave_at(source: &CheckedSource<'_>, i: usize, d: usize, sums: &mut [i64])
    requires { RowRequires source.now.frame i d sums.old }
    ensures { sums.new ≡ tabulate source.now.frame.columns (λ j. wrap (get_or sums.old j (pos 0) +ℤ enter_leave source.now.frame (plane_at (checked_source source.now)) i d j)) }
{
    let leave = i.checked_sub(d).unwrap_or(source.frame.rows);
    enter_and_leave(source, i + 1 + d, leave, sums);
}

// The same alone: in `row` the cells that enter less those that leave.
pub fn step_difference(source: &CheckedSource<'_>, i: usize, d: usize, row: &mut [i64])
    requires { RowRequires source.now.frame i d row.old }
    ensures { row.new ≡ tabulate source.now.frame.columns (λ j. wrap (enter_leave source.now.frame (plane_at (checked_source source.now)) i d j)) }
{
    plane_values::fill(row, 0);
    enter_and_leave_at(source, i, d, row);
}

// A row is added to the work area.
pub fn add(work: &mut [i64], row: &[i64])
    requires { length row.now ≡ length work.old }
    ensures { work.new ≡ tabulate (length work.old) (λ j. wrap (get_or work.old j (pos 0) +ℤ get_or row.now j (pos 0))) }
{
    add_each(|j| row[j], work);
}
