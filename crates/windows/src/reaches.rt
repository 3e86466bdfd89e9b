// How far a legal window goes to the sides in a row, and up and down in a column: alike but not twins, since a diamond's or hexagon's columns end at its height.
#![tactic(auto, unfolding(spec_picture::specs::Window::window_legal, spec_picture::specs::Window::shape_of, spec_picture::specs::Window::height, spec_picture::specs::Window::width, spec_picture::specs::Window::reach, spec_picture::specs::Window::depth))]

ghost use Rattle.std.specs.Prelude.{◌≡◌};
ghost use Rattle.spec_picture.specs.Window.{shape_of, height, reach, width, depth};
ghost use Rattle.spec_picture.specs.Checked.{given};

use crate::shape::{height, is_rectangle, width};
use spec_picture::CheckedWindow;

// The largest |q| in the rows at a distance from the middle one.
pub fn reach(window: CheckedWindow, distance: usize) -> usize
    ensures { result ≡ reach (shape_of (given window)) distance }
{
    let widest = width(window);
    if is_rectangle(window) {
        widest
    } else {
        widest.saturating_sub(distance)
    }
}

// The largest |p| in the columns at a distance from the middle one: document 01's d(q).
pub fn depth(window: CheckedWindow, distance: usize) -> usize
    ensures { result ≡ depth (shape_of (given window)) distance }
{
    let tallest = height(window);
    if is_rectangle(window) {
        tallest
    } else {
        tallest.min(reach(window, distance))
    }
}
