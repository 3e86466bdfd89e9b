// A legal window: whether it is a rectangle, and how far it goes up and down, and to the sides. With the checks, the only code that knows what the
// numbers of a shape say; others ask whether it is a rectangle, where rectangles go another way.
#![tactic(auto, unfolding(spec_picture::specs::Window::window_legal, spec_picture::specs::Window::shape_of, spec_picture::specs::Window::height, spec_picture::specs::Window::width))]

ghost use Rattle.std.specs.Prelude.{◌≡◌};
ghost use Rattle.spec_picture.specs.Window.{shape_of, is_rectangle, height, width};
ghost use Rattle.spec_picture.specs.Checked.{given};

use spec_picture::{CheckedWindow, Shape};

// The window is a rectangle, and not one of the others.
pub fn is_rectangle(window: CheckedWindow) -> bool
    ensures { result ≡ is_rectangle (shape_of (given window)) }
{
    window.shape == Shape::Rectangle
}

// The largest |p|.
pub fn height(window: CheckedWindow) -> usize
    ensures { result ≡ height (shape_of (given window)) }
{
    match window.shape {
        Shape::Hexagon => window.second.unsigned_abs() as usize,
        Shape::Rectangle | Shape::Diamond => window.first.unsigned_abs() as usize,
    }
}

// The largest |q|.
pub fn width(window: CheckedWindow) -> usize
    ensures { result ≡ width (shape_of (given window)) }
{
    let first = window.first.unsigned_abs() as usize;
    let second = window.second.unsigned_abs() as usize;
    match window.shape {
        Shape::Rectangle => second,
        Shape::Diamond => first,
        Shape::Hexagon => first + second,
    }
}
