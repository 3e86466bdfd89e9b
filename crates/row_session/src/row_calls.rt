// The row call on a plain position.
#![tactic(auto, unfolding(spec_picture::specs::Refusal::refusal, spec_picture::specs::Refusal::outcome, spec_rows::specs::Rows::row_call, spec_rows::specs::Rows::row_result))]

ghost use Rattle.std.specs.Prelude.{◌≡◌};
ghost use Rattle.spec_picture.specs.Answers.{outcome_of};
ghost use Rattle.spec_picture.specs.Given.{inputs_of};
ghost use Rattle.spec_rows.specs.Rows.{row_call};

use crate::advance;
use checks::operations::check_rows;
use spec_picture::{Inputs, Refusal};

// The row call on a plain position: "It writes the sums of the next n rows, moves the position on by n and answers n".
pub fn rows_at(
    inputs: &Inputs<'_>,
    position: &mut usize,
    request: usize,
    work: &mut [i64],
    out: &mut [i64],
) -> Result<usize, Refusal>
    ensures answer { outcome_of result ≡ (row_call (inputs_of inputs.now) position.old request work.old out.old).answer }
    ensures position { position.new ≡ (row_call (inputs_of inputs.now) position.old request work.old out.old).position }
    ensures work { work.new ≡ (row_call (inputs_of inputs.now) position.old request work.old out.old).work }
    ensures output { out.new ≡ (row_call (inputs_of inputs.now) position.old request work.old out.old).output }
{
    let checked = check_rows(inputs, *position, request, work, out)?;
    advance::next_rows(*position, &checked, request, work, out);
    *position += request;
    Ok(request)
}
