// The picture, its window, and two pictures under a shift: their types. What they mean is in specs/. No operation
// is computed here.
#![tactic(auto)]

ghost use Rattle.std.specs.Prelude.{◌≡◌};
ghost use Rattle.spec_picture.specs.Answers.{number};

mod checked; // checked.rt: inputs that checks have passed
mod plane; // plane.rt: the planes, by name
mod shape; // shape.rt: the shapes of windows, by name

pub use checked::{CheckedInputs, CheckedPictures, CheckedSource, CheckedTable, CheckedWindow};
pub use plane::Plane;
pub use shape::Shape;

// "A picture has 1 to 256 rows and 1 to 1,024 columns." Columns wrap where the last one is joined to the first, "as the periodic extension"; rows clip.
#[derive(Clone, Copy)]
pub struct Frame {
    pub rows: usize,
    pub columns: usize,
    pub columns_wrap: bool,
}

// A cell of a picture; rows and columns count from 0.
#[derive(Clone, Copy)]
pub struct Cell {
    pub row: usize,
    pub column: usize,
}

// A window as a call gives it: the number of its shape (1 rectangle, 2 diamond, 3 hexagon), and two numbers. The shape is a number here,
// since a call may give any.
#[derive(Clone, Copy)]
pub struct Window {
    pub shape: u32,
    pub first: i32,
    pub second: i32,
}

// A shift (u, v): u rows down and v columns to the right.
#[derive(Clone, Copy)]
pub struct Shift {
    pub down: i32,
    pub right: i32,
}

// Two pictures of a frame, a shift and a plane: what building a table takes. The plane is a number here, since a call may give any.
#[derive(Clone, Copy)]
pub struct Source<'a> {
    pub frame: Frame,
    pub f: &'a [i16],
    pub g: &'a [i16],
    pub shift: Shift,
    pub plane: u32,
}

// "The inputs are the pictures with their size, the window, the shift and the plane"
#[derive(Clone, Copy)]
pub struct Inputs<'a> {
    pub source: Source<'a>,
    pub window: Window,
}

// Why a call is turned down: the lines of document 01's table of refusals and those that document 02 adds, by their numbers. Checks run in number order, but for 11, which
// comes after 5.
#[derive(Clone, Copy, Debug, PartialEq, Eq, PartialOrd, Ord)]
pub enum Refusal {
    Size = 1, // rows or columns beyond limits
    Length = 2, // a picture's length is not rows times columns
    Window = 3, // shape not 1 to 3, or window numbers other than its shape allows
    Shift = 4, // shift beyond limits
    Plane = 5, // plane above 5
    Cell = 6, // cell outside the picture
    Position = 7, // position above rows, or request above rows minus position
    Area = 8, // table, work or output area of another length
    Sums = 9, // sums impossible
    Text = 10, // panel's text malformed
    Width = 11, // widest row above columns with columns that wrap
}

// "Only the number comes back".
impl From<Refusal> for u32 {
    ghost from_gives = { λ refusal n. n ≡ number refusal };

    fn from(refusal: Refusal) -> u32 {
        refusal as u32
    }
}
