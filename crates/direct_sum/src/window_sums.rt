// The sum of a plane over a window: row by row of the window, each row's part straight from the levels.
// For callers that have checked their inputs.
#![tactic(auto)]

ghost use Rattle.std.specs.Prelude.{◌≡◌};
ghost use Rattle.spec_picture.specs.Frame.{Within};
ghost use Rattle.spec_picture.specs.Checked.{checked_inputs};
ghost use Rattle.spec_picture.specs.Direct.{direct_sum};

use crate::row_totals::{near_sum, round_sum, stretch_of};
use arithmetic::wrapping;
use plane_rows::view::view_of;
use spec_picture::{Cell, CheckedInputs};
use windows::{clip, reaches, shape};

// The sum of the plane over a window that is not in one stretch of columns: one that goes on at the other end of the row, or whose cells of g do. Apart from `sum`, whose
// loop asks for neither. The inputs are taken by value, so that the caller's stay in registers.
#[tactic(auto, unfolding(spec_picture::specs::Frame::frame_legal))]
#[inline(never)]
fn round_rows(inputs: CheckedInputs<'_>, cell: Cell) -> i64
    requires { Within inputs.source.frame cell.row cell.column }
    ensures { result ≡ direct_sum (checked_inputs inputs.entry) cell.row cell.column }
{
    let row = cell.row;
    let column = cell.column;
    let view = view_of(&inputs.source);
    let height = shape::height(inputs.window);
    let bottom = clip::high(row, height, inputs.source.frame.rows);
    let mut s = 0i64;
    for m in clip::low(row, height)..bottom {
        let reach = reaches::reach(inputs.window, clip::distance(row, m));
        s = wrapping::wrapping_add(s, round_sum(&view, m, column, reach));
    }
    s
}

// The sum of the plane over the window. It has two callers, `direct_sum` and the slopes' first column: not inlined into the first, a sum of 3 × 3 takes 1.14 times as
// long.
#[tactic(auto, unfolding(spec_picture::specs::Frame::frame_legal))]
#[inline(always)]
pub fn sum(inputs: &CheckedInputs<'_>, cell: Cell) -> i64
    requires { Within inputs.now.source.frame cell.row cell.column }
    ensures { result ≡ direct_sum (checked_inputs inputs.now) cell.row cell.column }
{
    let row = cell.row;
    let column = cell.column;
    let view = view_of(&inputs.source);
    let Some(stretch) = stretch_of(&view, inputs.window, column) else {
        return round_rows(*inputs, cell);
    };
    let height = shape::height(inputs.window);
    let bottom = clip::high(row, height, inputs.source.frame.rows);
    let mut s = 0i64;
    for m in clip::low(row, height)..bottom {
        let reach = reaches::reach(inputs.window, clip::distance(row, m));
        s = wrapping::wrapping_add(s, near_sum(&view, stretch, m, column, reach));
    }
    s
}
