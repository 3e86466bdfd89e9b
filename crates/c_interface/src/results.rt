// How an answer goes to C: its status, and its value behind a pointer. Every call ends in one of these.
#![tactic(auto, unfolding(spec_c::specs::CResult::status, spec_c::specs::CResult::result_or, spec_c::specs::CResult::c_result))]

ghost use Rattle.std.specs.Prelude.{◌≡◌, pos};
ghost use Rattle.spec_picture.specs.Frame.{cell};
ghost use Rattle.spec_picture.specs.Answers.{number, outcome_of, optional_outcome};
ghost use Rattle.spec_c.specs.CResult.{with_value, status, c_result, of_option, of_cell};
ghost use Rattle.spec_c.specs.Leaves.{CallLeaves};

use spec_picture::{Cell, Refusal};

// The statuses of answers with no value.
pub const EMPTY: i32 = -1;

pub const FLAT: i32 = -2;

pub const NOWHERE: i32 = -3;

// The kinds of a voice.
pub const STEADY: u32 = 1;

pub const GRAINY: u32 = 2;

// The status of a call that is turned down: the number of its refusal.
pub fn refused(refusal: Refusal) -> i32
    ensures { result ≡ pos (number refusal) }
{
    u32::from(refusal) as i32
}

// The status of a call that has no value to hand back. Not `hand_back` of `()`, which would want a place for nothing.
pub fn done(answer: Result<(), Refusal>) -> i32
    ensures { result ≡ status (c_result with_value (outcome_of answer)) }
{
    match answer {
        Ok(()) => 0,
        Err(line) => refused(line),
    }
}

// The status of a call, and its value behind the pointer.
pub fn hand_back<T: Copy>(answer: Result<T, Refusal>, place: &mut T) -> i32
    ensures { CallLeaves (c_result with_value (outcome_of answer)) place.old result place.new }
{
    match answer {
        Ok(given) => {
            *place = given;
            0
        }
        Err(refusal) => refused(refusal),
    }
}

// The same of a call that may have no value, with the status that says so.
pub fn hand_back_or<T: Copy>(answer: Result<Option<T>, Refusal>, none: i32, place: &mut T) -> i32
    ensures { CallLeaves (c_result (of_option none) (optional_outcome answer)) place.old result place.new }
{
    match answer {
        Ok(Some(value)) => {
            *place = value;
            0
        }
        Ok(None) => none,
        Err(refusal) => refused(refusal),
    }
}

// The first steady cell. Not `hand_back_or`, which has one place for a value: C takes the cell behind two pointers.
pub fn found(answer: Result<Option<Cell>, Refusal>, row: &mut usize, column: &mut usize) -> i32
    ensures { CallLeaves (c_result of_cell (optional_outcome answer)) (cell row.old column.old) result (cell row.new column.new) }
{
    match answer {
        Ok(Some(cell)) => {
            *row = cell.row;
            *column = cell.column;
            0
        }
        Ok(None) => NOWHERE,
        Err(refusal) => refused(refusal),
    }
}
