// What each operation is refused for: a line for each check, with its number in the table of refusals, in the order in which they run.
#![tactic(auto, unfolding(spec_picture::specs::Refusal::refusal, spec_picture::specs::Refusal::outcome))]

ghost use Rattle.std.specs.Prelude.{◌≡◌};
ghost use Rattle.spec_picture.specs.Refusal.{refusal, outcome};
ghost use Rattle.spec_picture.specs.Answers.{outcome_by};
ghost use Rattle.spec_picture.specs.Picture.{inputs};
ghost use Rattle.spec_picture.specs.Given.{source_of, inputs_of};
ghost use Rattle.spec_picture.specs.Checked.{checked_source, checked_inputs};
ghost use Rattle.spec_picture.specs.Conditions.{input_checks};
ghost use Rattle.spec_picture.specs.Direct.{direct_checks};
ghost use Rattle.spec_table.specs.Table.{build_checks, read_checks};
ghost use Rattle.spec_rows.specs.Rows.{row_checks};
ghost use Rattle.spec_smoothing.specs.Smoothing.{alone, smooth_checks};
ghost use Rattle.spec_smoothing.specs.Steady.{steady_checks};
ghost use Rattle.checks.specs.Reading.{reading, reading_of};

use crate::legal_frames::{cell_inside, frame_legal, is_full};
use crate::legal_windows::{shift_legal, window_fits};
use crate::{check_pictures, check_window, require, with_shift};
use spec_picture::{
    Cell, CheckedInputs, CheckedSource, CheckedTable, CheckedWindow, Frame, Inputs, Plane, Refusal,
    Shift, Source, Window,
};

// The inputs alone, for the direct sum and the row call.
fn check_inputs<'a>(inputs: &Inputs<'a>) -> Result<CheckedInputs<'a>, Refusal>
    ensures { outcome_by checked_inputs result ≡ outcome (refusal (input_checks (inputs_of inputs.now))) (inputs_of inputs.now) }
{
    let given = &inputs.source;
    let pictures = check_pictures(given.frame, given.f, given.g)?; // 1, 2
    let window = check_window(inputs.window)?; // 3
    require(shift_legal(given.shift), Refusal::Shift)?; // 4
    let plane = Plane::try_from(given.plane)?; // 5
    require(window_fits(given.frame, window), Refusal::Width)?; // 11
    let source = with_shift(&pictures, given.shift, plane);
    Ok(CheckedInputs { source, window })
}

// The direct sum.
pub fn check_direct<'a>(inputs: &Inputs<'a>, cell: Cell) -> Result<CheckedInputs<'a>, Refusal>
    ensures { outcome_by checked_inputs result ≡ outcome (refusal (direct_checks (inputs_of inputs.now) cell.row cell.column)) (inputs_of inputs.now) }
{
    let checked = check_inputs(inputs)?; // 1 to 5, 11
    require(cell_inside(inputs.source.frame, cell), Refusal::Cell)?; // 6
    Ok(checked)
}

// Building a table.
pub fn check_build<'a>(source: &Source<'a>, table: &[i64]) -> Result<CheckedSource<'a>, Refusal>
    ensures { outcome_by checked_source result ≡ outcome (refusal (build_checks (source_of source.now) table.now)) (source_of source.now) }
{
    let pictures = check_pictures(source.frame, source.f, source.g)?; // 1, 2
    require(shift_legal(source.shift), Refusal::Shift)?; // 4
    let plane = Plane::try_from(source.plane)?; // 5
    require(is_full(source.frame, table.len()), Refusal::Area)?; // 8
    Ok(with_shift(&pictures, source.shift, plane))
}

// Reading a table.
pub fn check_read<'a>(
    frame: Frame,
    numbers: &'a [i64],
    window: Window,
    cell: Cell,
) -> Result<(CheckedTable<'a>, CheckedWindow), Refusal>
    ensures { outcome_by reading_of result ≡ outcome (refusal (read_checks frame numbers.now window cell.row cell.column)) (reading frame numbers.now window) }
{
    require(frame_legal(frame), Refusal::Size)?; // 1
    let window = check_window(window)?; // 3
    require(window_fits(frame, window), Refusal::Width)?; // 11
    require(cell_inside(frame, cell), Refusal::Cell)?; // 6
    require(is_full(frame, numbers.len()), Refusal::Area)?; // 8
    Ok((CheckedTable { frame, numbers }, window))
}

// The row call.
pub fn check_rows<'a>(
    inputs: &Inputs<'a>,
    position: usize,
    request: usize,
    work: &[i64],
    out: &[i64],
) -> Result<CheckedInputs<'a>, Refusal>
    ensures { outcome_by checked_inputs result ≡ outcome (refusal (row_checks (inputs_of inputs.now) position request work.now out.now)) (inputs_of inputs.now) }
{
    let checked = check_inputs(inputs)?; // 1 to 5, 11
    let rows = inputs.source.frame.rows;
    let columns = inputs.source.frame.columns;
    require(position <= rows, Refusal::Position)?; // 7
    require(request <= rows - position, Refusal::Position)?; // 7
    require(work.len() == columns, Refusal::Area)?; // 8
    require(out.len() == request * columns, Refusal::Area)?; // 8
    Ok(checked)
}

// Smoothing. "One picture alone is the case g = f with shift (0, 0)."
pub fn check_smooth<'a>(
    frame: Frame,
    f: &'a [i16],
    window: Window,
    out: &[i16],
) -> Result<CheckedInputs<'a>, Refusal>
    ensures { outcome_by checked_inputs result ≡ outcome (refusal (smooth_checks frame f.now window out.now)) (alone frame f.now window) }
{
    let pictures = check_pictures(frame, f, f)?; // 1, 2
    let window = check_window(window)?; // 3
    require(window_fits(frame, window), Refusal::Width)?; // 11
    require(is_full(frame, out.len()), Refusal::Area)?; // 8
    let source = with_shift(&pictures, Shift { down: 0, right: 0 }, Plane::One);
    Ok(CheckedInputs { source, window })
}

// The steady search. It takes its own planes; the inputs have plane 0 for want of one.
pub fn check_steady<'a>(
    frame: Frame,
    f: &'a [i16],
    g: &'a [i16],
    window: Window,
    shift: Shift,
) -> Result<CheckedInputs<'a>, Refusal>
    ensures { outcome_by checked_inputs result ≡ outcome (refusal (steady_checks frame f.now g.now window shift)) (inputs frame f.now g.now window shift 0) }
{
    let pictures = check_pictures(frame, f, g)?; // 1, 2
    let window = check_window(window)?; // 3
    require(shift_legal(shift), Refusal::Shift)?; // 4
    require(window_fits(frame, window), Refusal::Width)?; // 11
    let source = with_shift(&pictures, shift, Plane::One);
    Ok(CheckedInputs { source, window })
}
