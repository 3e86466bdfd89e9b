// The limits of a window's numbers and of a shift as tests, and whether a window fits the columns where they wrap.
#![tactic(auto, unfolding(spec_picture::specs::Window::window_legal, spec_picture::specs::Window::rectangle_legal, spec_picture::specs::Window::diamond_legal, spec_picture::specs::Window::hexagon_legal, spec_picture::specs::Picture::shift_legal))]

ghost use Rattle.std.specs.Prelude.{◌≡◌};
ghost use Rattle.spec_picture.specs.Window.{window, between, rectangle_legal, diamond_legal, hexagon_legal, window_legal, fits};
ghost use Rattle.spec_picture.specs.Shape.{shape_number};
ghost use Rattle.spec_picture.specs.Checked.{given};
ghost use Rattle.spec_picture.specs.Picture.{shift_legal};

use spec_picture::{CheckedWindow, Frame, Shape, Shift};
use windows::shape;

// low ≤ x ≤ high. std's method of a range: it has a name here, so that its promise in the words of the definitions is stated once.
pub fn is_between(low: i32, high: i32, x: i32) -> bool
    ensures { result ≡ between low high x }
{
    (low..=high).contains(&x)
}

fn rectangle_legal(first: i32, second: i32) -> bool
    ensures { result ≡ rectangle_legal first second }
{
    is_between(0, 127, first) && is_between(0, 127, second)
}

fn diamond_legal(first: i32, second: i32) -> bool
    ensures { result ≡ diamond_legal first second }
{
    is_between(0, 127, first) && is_between(0, 0, second)
}

fn hexagon_legal(first: i32, second: i32) -> bool
    ensures { result ≡ hexagon_legal first second }
{
    is_between(0, 127, first) && is_between(0, 127, second) && first + second <= 127
}

// The two numbers are such as the shape allows.
pub fn numbers_legal(shape: Shape, first: i32, second: i32) -> bool
    ensures { result ≡ window_legal (window (shape_number shape) first second) }
{
    match shape {
        Shape::Rectangle => rectangle_legal(first, second),
        Shape::Diamond => diamond_legal(first, second),
        Shape::Hexagon => hexagon_legal(first, second),
    }
}

// "its widest row must fit the columns" where they wrap.
pub fn window_fits(frame: Frame, window: CheckedWindow) -> bool
    ensures { result ≡ fits frame (given window) }
{
    !(frame.columns_wrap && frame.columns < 2 * shape::width(window) + 1)
}

// The shift is within limits.
pub fn shift_legal(shift: Shift) -> bool
    ensures { result ≡ shift_legal shift }
{
    is_between(-255, 255, shift.down) && is_between(-1023, 1023, shift.right)
}
