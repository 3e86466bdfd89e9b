// Whether many rows are computed by the slopes of a window's edges: wherever that is the faster way. Both tests ask of the window whether it has slopes, though their caller
// has them in a `slope_rows::kept_slopes::SlantedInputs`, so that each promise is complete by itself, below the slopes.

ghost use Rattle.spec_picture.specs.Plane.{plane_number};
ghost use Rattle.windows.specs.ChooseMethod.{BySlopes, TopBySlopes};
ghost use Rattle.spec_picture.specs.Checked.{given};

use crate::shape;
use spec_picture::{CheckedWindow, Plane};

// Whether the slopes are the faster way. They have to be started once a call, which pays from the second row on.
pub fn by_slopes(window: CheckedWindow, n: usize) -> bool
    ensures { BySlopes (given window) n result }
{
    !shape::is_rectangle(window) && n >= 2
}

// Whether row 0 is computed by the slopes too: at position 0, of ones and levels.
pub fn top_by_slopes(position: usize, window: CheckedWindow, plane: Plane, n: usize) -> bool
    ensures { TopBySlopes position (given window) (plane_number plane) n result }
{
    !shape::is_rectangle(window)
        && shape::height(window) >= 1
        && position == 0
        && plane.is_narrow()
        && n >= 1
}
