// Rows of the padded plane, as far as the loops over slopes reach.

ghost use Rattle.std.specs.Prelude.{map};
ghost use Rattle.spec_picture.specs.Plane.{plane_number};
ghost use Rattle.slope_loops.specs.Loops.{Blank};
ghost use Rattle.slope_rows.specs.Edges.{PlaneRow};

use crate::kept_slopes::SlantedInputs;
use slope_loops::padding;
use slope_loops::padding::{PlaneValue, ROW_LENGTH};

// Row y of the padded plane: the loops begin at the first column of which slopes are kept, and reach as far as the window is wide, and when the slopes move on a column farther.
// Inlined, with what it calls down to the picture's rows: as calls, three a row, they made rows of 16 to 64 columns take 1.1 to 1.2 times as long.
#[inline(always)]
pub fn load<V: PlaneValue>(slanted: &SlantedInputs<'_>, y: usize, buf: &mut [V; ROW_LENGTH])
    requires { V.holds (plane_number slanted.now.inputs.source.plane) × Blank slanted.now.inputs.source.frame (map V.value buf.old) }
    ensures { PlaneRow slanted.now y (map V.value buf.new) }
{
    let side = slanted.width + slanted.beside + 1;
    padding::load(&slanted.inputs.source, y, side, buf);
}
