// Planes 0, 1 and 2, whose values are ones and levels: rows of 16 bits. That the plane is one of them is what `PlaneValue::holds` says of i16, and each contract
// asks it in these words; a type of such planes would be made anew of `source.plane` at every row.
// For callers that have checked their inputs.
ghost use Rattle.std.specs.Prelude.{◌≡◌, ◌≤◌, ◌^◌, pos, length, get_or};
ghost use Rattle.numbers.specs.Grid.{tabulate};
ghost use Rattle.spec_picture.specs.Picture.{plane_at};
ghost use Rattle.spec_picture.specs.Plane.{plane_number};
ghost use Rattle.spec_picture.specs.Checked.{checked_source};
ghost use Rattle.std.proofs.Common.{arith};
ghost use Rattle.spec_picture.proofs.Planes.{plane-level};

use crate::padding::{ABOVE, PlaneValue};
use plane_rows::level_rows::{copied_row, fill};
use spec_picture::CheckedSource;

impl PlaneValue for i16 {
    ghost value = { λ x. x };

    ghost value_max = { 2 ^ 15 };

    ghost holds = { λ p. p ≤ 2 };

    ghost small = { λ x p f g. plane-level x f g p };

    ghost row_fits = { omega arith };

    fn zero() -> i16 {
        0
    }

    #[inline(always)]
    fn own_columns(source: &CheckedSource<'_>, y: usize, out: &mut [i16]) {
        if y < ABOVE {
            fill(out, 0);
            return;
        }
        copied_row(source, y - ABOVE, out);
    }
}
