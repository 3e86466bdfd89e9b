// The direct sum: the sum of the plane over the window. Its checks are in `checks`, and which cells count is known in `plane_rows`.
#![tactic(auto, unfolding(spec_picture::specs::Refusal::refusal, spec_picture::specs::Refusal::outcome, spec_picture::specs::Direct::direct_call))]

pub mod row_totals; // row_totals.rt: the values of a row's cells, summed
pub mod window_sums; // window_sums.rt: the window's rows, summed

ghost use Rattle.std.specs.Prelude.{◌≡◌};
ghost use Rattle.spec_picture.specs.Given.{inputs_of};
ghost use Rattle.spec_picture.specs.Direct.{direct_call};
ghost use Rattle.spec_picture.specs.Answers.{outcome_of};

use checks::operations::check_direct;
use spec_picture::{Cell, Inputs, Refusal};

// "Direct sum: from pictures, window, shift, plane and cell, the sum of the plane over the window." Refused by 1 to 6.
pub fn direct_sum(inputs: &Inputs<'_>, cell: Cell) -> Result<i64, Refusal>
    ensures { outcome_of result ≡ direct_call (inputs_of inputs.now) cell.row cell.column }
{
    let checked = check_direct(inputs, cell)?;
    Ok(window_sums::sum(&checked, cell))
}
