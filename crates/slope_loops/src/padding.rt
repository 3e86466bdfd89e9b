// Rows of a plane among zeros, or where columns wrap among the cells at their other end, so that no loop asks where the picture ends.
// For callers that have checked their inputs.

ghost use Rattle.std.specs.Prelude.{◌≡◌, ℕ, ◌*◌, ◌^◌, ◌<◌, ◌≤◌, ℤ, pos, nat_abs, map, length};
ghost use Rattle.std.specs.Mem.{type_size};
ghost use Rattle.numbers.specs.Grid.{tabulate};
ghost use Rattle.spec_picture.specs.Picture.{Source, Levels, plane_at};
ghost use Rattle.spec_picture.specs.Plane.{plane_number};
ghost use Rattle.spec_picture.specs.Checked.{checked_source};
ghost use Rattle.slope_loops.specs.Slopes.{lowered};
ghost use Rattle.slope_loops.specs.Loops.{Joined, JoinRequires, Loaded, LoadRequires};
ghost use Rattle.slope_loops.specs.declared.padding.TheConstants.{ROW_LENGTH};

use spec_picture::CheckedSource;

// The rows of zeros above a picture's first row: more than a window reaches up.
pub const ABOVE: usize = 128;

// The cells on each side of a row: more than twice what a window reaches to a side, since the loops begin as far before the first column and reach as far again.
pub const MARGIN: usize = 256;

// The numbers of a row: those of the longest row of a picture, and a margin on each side. So many slopes are kept of a row.
pub const ROW_LENGTH: usize = MARGIN + 1024 + MARGIN;

pub mod narrow; // narrow.rt: planes 0, 1 and 2, whose values are ones and levels
pub mod wide; // wide.rt: planes 3, 4 and 5, whose values are products

// The numbers of a row: the values of the planes that fit them.
pub trait PlaneValue: Copy {
    // the number that one stands for
    ghost value: { Self → ℤ };

    // The planes whose values fit. Each function over slopes asks it of its plane in its contract: no struct has both a plane and a type of numbers.
    ghost holds: { ℕ → Type 0 };

    // how large those values are
    ghost value_max: { ℕ };

    // 0
    fn zero() -> Self
        ensures { value result ≡ pos 0 };

    // The picture's columns of row y of the padded plane: row y - ABOVE of the plane, and zeros where there is none.
    fn own_columns(source: &CheckedSource<'_>, y: usize, out: &mut [Self])
        requires { holds (plane_number source.now.plane) × (length (map value out.old) ≡ source.now.frame.columns) }
        ensures { map value out.new ≡ tabulate source.now.frame.columns (lowered (plane_at (checked_source source.now)) y) };

    // the values of such a plane are that large
    ghost small: { (x : Source) → holds x.plane → Levels x.f → Levels x.g → (m n : ℕ) → nat_abs (plane_at x m n) ≤ value_max };

    // a row fits in memory
    ghost row_fits: { ROW_LENGTH * type_size Self.row < 2 ^ 63 };
}

// Beside the picture's columns, `side` cells on either side are those at the other end of the row.
pub fn join_sides<V: PlaneValue>(columns: usize, side: usize, buf: &mut [V; ROW_LENGTH])
    requires { JoinRequires columns side (map V.value buf.old) }
    ensures { Joined columns side (map V.value buf.old) (map V.value buf.new) }
{
    let right = MARGIN + columns;
    buf.copy_within(right - side..right, MARGIN - side);
    buf.copy_within(MARGIN..MARGIN + side, right);
}

// Row y of the padded plane, as far as `side` columns beside the picture's own. Beside them the buffer has zeros where columns clip, and keeps them.
#[inline(always)]
pub fn load<V: PlaneValue>(
    source: &CheckedSource<'_>,
    y: usize,
    side: usize,
    buf: &mut [V; ROW_LENGTH],
)
    requires { V.holds (plane_number source.now.plane) × LoadRequires source.now.frame side (map V.value buf.old) }
    ensures { Loaded source.now.frame side (plane_at (checked_source source.now)) y (map V.value buf.new) }
{
    let left = MARGIN;
    let right = left + source.frame.columns;
    let row = &mut buf[..];
    V::own_columns(source, y, &mut row[left..right]);
    if source.frame.columns_wrap {
        join_sides(source.frame.columns, side, buf);
    }
}
