// The limits of a frame as tests: its rows and columns, a cell of it, the length of its areas.
#![tactic(auto, unfolding(spec_picture::specs::Frame::frame_legal))]

ghost use Rattle.std.specs.Prelude.{◌≡◌, ◌&&◌, T, ltb, eqb};
ghost use Rattle.spec_picture.specs.Frame.{frame_legal, cells};

use spec_picture::{Cell, Frame};

// Rows and columns are within limits.
pub fn frame_legal(frame: Frame) -> bool
    ensures { result ≡ frame_legal frame }
{
    (1..=256).contains(&frame.rows) && (1..=1024).contains(&frame.columns)
}

// The cell is inside the picture.
pub fn cell_inside(frame: Frame, cell: Cell) -> bool
    ensures { result ≡ (ltb cell.row frame.rows && ltb cell.column frame.columns) }
{
    cell.row < frame.rows && cell.column < frame.columns
}

// The length of an area is rows times columns. For callers that have checked the frame.
pub fn is_full(frame: Frame, length: usize) -> bool
    requires { T (frame_legal frame) }
    ensures { result ≡ eqb length (cells frame) }
{
    length == frame.rows * frame.columns
}
