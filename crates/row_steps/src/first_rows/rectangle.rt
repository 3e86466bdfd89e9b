// A rectangle's column sums: those of row 0.
ghost use Rattle.std.specs.Prelude.{◌≡◌, length};
ghost use Rattle.numbers.specs.Grid.{tabulate};
ghost use Rattle.spec_picture.specs.Picture.{plane_at};
ghost use Rattle.spec_picture.specs.Checked.{checked_source};
ghost use Rattle.spec_rows.specs.Rows.{column_sum};

use plane_rows::plane_values;
use row_loops::enter_and_leave::enter_and_leave;
use spec_picture::CheckedSource;
use windows::clip;

// Row 0: the column sums over rows 0 to a. None leaves: past the picture's last row no cell counts.
pub fn column_sums(source: &CheckedSource<'_>, a: usize, work: &mut [i64])
    requires { length work.old ≡ source.now.frame.columns }
    ensures { work.new ≡ tabulate source.now.frame.columns (column_sum source.now.frame (plane_at (checked_source source.now)) a 0) }
{
    let end = clip::high(0, a, source.frame.rows);
    plane_values::fill(work, 0);
    for m in 0..end {
        enter_and_leave(source, m, source.frame.rows, work);
    }
}
