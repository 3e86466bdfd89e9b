// Where the slopes of a row are kept, and where their cells are. `first` is the place of the first column of a loop, in a row with its margins.

ghost use Rattle.std.specs.Prelude.{◌-◌, ◌≤◌};
ghost use Rattle.slope_rows.specs.Places.{RisingCells, FallingCells, RisingPlaces, FallingPlaces};

use slope_loops::loops::{GatherPlaces, SlidePlaces};
use slope_loops::padding::MARGIN;

// How far from the place of its column a slope is kept when a call begins: one that rises before it, one that falls after it. With each row of the call it is a place
// nearer, then further on the other side: no more than this, as a picture has no more than 256 rows.
pub const SLOPE_SHIFT: usize = 128;

// Where the slope of the picture's first column that rises is kept when a call begins.
pub const RISING_START: usize = MARGIN - SLOPE_SHIFT;

// Where the one that falls is kept.
pub const FALLING_START: usize = MARGIN + SLOPE_SHIFT;

// A row of the picture in a call: `moved` rows of the call are before it, and its slopes are kept so many places from where those of a column were when the call began.
#[derive(Clone, Copy)]
pub struct CallRow {
    pub row: usize,
    pub moved: usize,
}

// The slopes that rise, when a call begins: where `gather` finds the cells that are `far` columns from the window's middle. It begins at the picture's first column.
pub fn rising_cells(far: usize) -> GatherPlaces
    requires { far ≤ 127 }
    ensures { RisingCells MARGIN far result }
{
    let first = MARGIN;
    GatherPlaces {
        sums: first - SLOPE_SHIFT,
        enters: first + far,
        leaves: first - far,
    }
}

// The slopes that fall: the same in a mirror. It begins so many columns before the picture's first as slopes are kept of.
pub fn falling_cells(beside: usize, far: usize) -> GatherPlaces
    requires { (beside ≤ 127) × (far ≤ 127) }
    ensures { FallingCells (MARGIN - beside) far result }
{
    let first = MARGIN - beside;
    GatherPlaces {
        sums: first + SLOPE_SHIFT,
        enters: first - far,
        leaves: first + far,
    }
}

// The slopes that rise, where they have moved by so many places: where `slide` finds the ends of a slope of each edge. The window has width w, and its edges are flat for k
// columns on either side of the middle.
pub fn rising_places(moved: usize, w: usize, k: usize) -> SlidePlaces
    requires { (moved ≤ 255) × (k ≤ w) × (w ≤ 127) }
    ensures { RisingPlaces MARGIN moved w k result }
{
    let first = MARGIN;
    SlidePlaces {
        sums: first - SLOPE_SHIFT + moved,
        lower_new: first + 1 + k,
        lower_gone: first + 1 + w,
        upper_new: first - w,
        upper_gone: first - k,
    }
}

// The slopes that fall: the same in a mirror.
pub fn falling_places(moved: usize, beside: usize, w: usize, k: usize) -> SlidePlaces
    requires { (moved ≤ 255) × (beside ≤ 127) × (k ≤ w) × (w ≤ 127) }
    ensures { FallingPlaces (MARGIN - beside) moved w k result }
{
    let first = MARGIN - beside;
    SlidePlaces {
        sums: first + SLOPE_SHIFT - moved,
        lower_new: first - 1 - k,
        lower_gone: first - 1 - w,
        upper_new: first + w,
        upper_gone: first + k,
    }
}
