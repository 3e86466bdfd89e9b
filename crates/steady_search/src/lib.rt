// The steady search: the first cell whose voice answer is Steady. It runs on the row steps, with work areas on the stack.
// What it takes goes one by one: it has no plane, so it has not all that `Inputs` has.
#![tactic(auto, unfolding(spec_picture::specs::Refusal::outcome, spec_smoothing::specs::Steady::steady_call))]

pub mod steady_cells; // steady_cells.rt: the first steady cell of a block of rows
pub mod search; // search.rt: all rows, 16 at a time

ghost use Rattle.std.specs.Prelude.{◌≡◌};
ghost use Rattle.spec_picture.specs.Answers.{optional_outcome};
ghost use Rattle.spec_smoothing.specs.Steady.{steady_call};

use checks::operations::check_steady;
use spec_picture::{Cell, Frame, Refusal, Shift, Window};

// "The steady search takes two pictures, a window and a shift, and gives the first cell in row order whose voice answer is Steady, or
// None".
pub fn steady(
    frame: Frame,
    f: &[i16],
    g: &[i16],
    window: Window,
    shift: Shift,
) -> Result<Option<Cell>, Refusal>
    ensures { optional_outcome result ≡ steady_call frame f.now g.now window shift }
{
    let checked = check_steady(frame, f, g, window, shift)?;
    Ok(search::by_blocks(&checked))
}
