// The row session: the sums of the next rows, from a lent work area that one row hands to the next. Its checks are in `checks`; from one row to the next go `row_steps`
// and `slope_rows`.
#![tactic(auto)]

pub mod advance; // advance.rt: many rows
pub mod blocks; // blocks.rt: 16 rows at a time
pub mod row_calls; // row_calls.rt: the row call on a plain position

ghost use Rattle.std.specs.Prelude.{◌≡◌};
ghost use Rattle.spec_picture.specs.Answers.{outcome_of};
ghost use Rattle.spec_picture.specs.Given.{inputs_of};
ghost use Rattle.spec_rows.specs.Rows.{row_call};

use crate::row_calls::rows_at;
use spec_picture::{Inputs, Refusal};

// "A session is a small record: the position, which is the number of rows granted so far, 0 when fresh."
#[derive(Clone, Copy)]
pub struct Session {
    pub position: usize,
}

impl Session {
    // "The call takes it lent and moves it on."
    pub fn rows(
        &mut self,
        inputs: &Inputs<'_>,
        request: usize,
        work: &mut [i64],
        out: &mut [i64],
    ) -> Result<usize, Refusal>
        ensures answer { outcome_of result ≡ (row_call (inputs_of inputs.now) self.old.position request work.old out.old).answer }
        ensures position { self.new.position ≡ (row_call (inputs_of inputs.now) self.old.position request work.old out.old).position }
        ensures work { work.new ≡ (row_call (inputs_of inputs.now) self.old.position request work.old out.old).work }
        ensures output { out.new ≡ (row_call (inputs_of inputs.now) self.old.position request work.old out.old).output }
    {
        rows_at(inputs, &mut self.position, request, work, out)
    }
}

// The same for callers that keep the position as a plain number, as C does: a session for the length of the call.
pub fn rows_plain(
    inputs: &Inputs<'_>,
    position: &mut usize,
    request: usize,
    work: &mut [i64],
    out: &mut [i64],
) -> Result<usize, Refusal>
    ensures answer { outcome_of result ≡ (row_call (inputs_of inputs.now) position.old request work.old out.old).answer }
    ensures position { position.new ≡ (row_call (inputs_of inputs.now) position.old request work.old out.old).position }
    ensures work { work.new ≡ (row_call (inputs_of inputs.now) position.old request work.old out.old).work }
    ensures output { out.new ≡ (row_call (inputs_of inputs.now) position.old request work.old out.old).output }
{
    let mut session = Session {
        position: *position,
    };
    let answer = session.rows(inputs, request, work, out);
    *position = session.position;
    answer
}
