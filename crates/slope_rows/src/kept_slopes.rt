// Inputs whose window is no rectangle, with its height and width, and where slopes are kept of columns beside the picture's.

ghost use Rattle.std.specs.Prelude.{◌≡◌, IfSome};
ghost use Rattle.spec_picture.specs.Window.{shape_of};
ghost use Rattle.spec_picture.specs.Checked.{given};
ghost use Rattle.slope_rows.specs.Fits.{Fits, KeptBeside};

use spec_picture::{CheckedInputs, Frame};
use windows::shape;

// Of how many columns beside the picture's slopes are kept. Where columns clip, of as many as the window is wide: those slopes reach the picture, and move into it. Where
// they wrap, of none, since the slopes of the picture's own columns come round.
fn kept_beside(frame: Frame, width: usize) -> usize
    ensures { KeptBeside frame width result }
{
    if frame.columns_wrap { 0 } else { width }
}

// Inputs whose window is no rectangle, with the window's height and width, and the number of columns beside the picture's of which slopes are kept.
#[derive(Clone, Copy)]
pub struct SlantedInputs<'a> {
    pub inputs: CheckedInputs<'a>,
    pub height: usize,
    pub width: usize,
    pub beside: usize,
    pub ghost fits: { Fits (shape_of (given inputs.window)) height width },
    pub ghost kept: { KeptBeside inputs.source.frame width beside },
}

// The same inputs, where their window is no rectangle.
pub fn slanted<'a>(inputs: &CheckedInputs<'a>) -> Option<SlantedInputs<'a>>
    ensures { IfSome result (λ slanted. slanted.inputs ≡ inputs.now) }
{
    if shape::is_rectangle(inputs.window) {
        return None;
    }
    let height = shape::height(inputs.window);
    let width = shape::width(inputs.window);
    let beside = kept_beside(inputs.source.frame, width);
    Some(SlantedInputs {
        inputs: *inputs,
        height,
        width,
        beside,
    })
}
