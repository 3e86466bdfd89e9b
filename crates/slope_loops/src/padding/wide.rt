// Planes 3, 4 and 5, whose values are products of levels: rows of 64 bits. They hold the other planes too.
// For callers that have checked their inputs.
ghost use Rattle.std.specs.Prelude.{◌^◌, ⊤};
ghost use Rattle.std.proofs.Common.{arith};
ghost use Rattle.spec_picture.proofs.Planes.{plane-bound};

use crate::padding::{ABOVE, PlaneValue};
use plane_rows::{plane_values, planes};
use spec_picture::CheckedSource;

impl PlaneValue for i64 {
    ghost value = { λ x. x };

    ghost value_max = { 2 ^ 30 };

    ghost holds = { λ p. ⊤ };

    ghost small = { λ x p f g. plane-bound x f g };

    ghost row_fits = { omega arith };

    fn zero() -> i64 {
        0
    }

    fn own_columns(source: &CheckedSource<'_>, y: usize, out: &mut [i64]) {
        if y < ABOVE {
            plane_values::fill(out, 0);
            return;
        }
        planes::plane_row(source, y - ABOVE, out);
    }
}
