// Rows of a factor, whose values are ones and levels, as numbers of 16 bits: a part of columns that count is lent as the picture has it, and a whole row may be copied among
// zeros.
// For callers that have checked their inputs.
ghost use Rattle.std.specs.Prelude.{◌≡◌, ◌≤◌, length, IfSome};
ghost use Rattle.numbers.specs.Grid.{tabulate};
ghost use Rattle.spec_picture.specs.Picture.{plane_at};
ghost use Rattle.spec_picture.specs.Plane.{plane_number};
ghost use Rattle.spec_picture.specs.Checked.{checked_source};
ghost use Rattle.plane_rows.specs.Factors.{on_factor};
ghost use Rattle.plane_rows.specs.LevelRows.{Cells, AllCount};

use crate::factors::{Factor, Factors, factors_of};
use crate::overlaps::Overlap;
use crate::view::{View, view_of};
use spec_picture::CheckedSource;

// Rows of zeros and of ones, as long as the longest row of a picture.
const ZEROS: [i16; 1024] = [0; 1024];

const ONES: [i16; 1024] = [1; 1024];

// Every number of out is the value. One function for this and `plane_values::fill` is no plainer: of a type parameter the library's fill asks that its clone
// cannot fail and is the value.
#[tactic(auto, using(crate::proofs::Filled::filled))]
pub fn fill(out: &mut [i16], value: i16)
    ensures { out.new ≡ tabulate (length out.old) (λ k. value) }
{
    out.fill(value);
}

// The levels are copied. A loop, since the library's copy calls C's memmove.
fn copy(levels: &[i16], out: &mut [i16])
    requires { length levels.now ≡ length out.old }
    ensures { out.new ≡ levels.now }
{
    for k in 0..out.len() {
        out[k] = levels[k];
    }
}

// The columns from `start` up to `end` of one of the two stretches of columns that count: as the picture has them if the row counts, and zeros if it does not.
#[inline(always)]
#[tactic(auto, unfolding(spec_picture::specs::Frame::frame_legal))]
pub fn part<'a>(
    view: &View<'a>,
    factor: Factor,
    row: usize,
    stretch: Overlap,
    start: usize,
    end: usize,
) -> &'a [i16]
    requires { AllCount view.now.source.frame view.now.source.shift stretch start end }
    ensures { Cells (plane_at (on_factor (checked_source view.now.source) factor)) row start end result.now }
{
    if !view.has_row(row) {
        return &ZEROS[..end - start];
    }
    let width = view.source.frame.columns;
    match factor {
        Factor::One => &ONES[..end - start],
        Factor::F => {
            let first = row * width;
            &view.source.f[first + start..first + end]
        }
        Factor::G => {
            let row_of_g = view.rows.first_in_g + (row - view.rows.first);
            let first = row_of_g * width + stretch.first_in_g;
            let before = stretch.first;
            &view.source.g[first + (start - before)..first + (end - before)]
        }
    }
}

// A whole row as the picture has it, where all columns count and none is past the seam.
#[inline(always)]
pub fn own_row<'a>(view: &View<'a>, factor: Factor, row: usize) -> Option<&'a [i16]>
    ensures { IfSome result (λ levels. Cells (plane_at (on_factor (checked_source view.now.source) factor)) row 0 view.now.source.frame.columns levels.now) }
{
    let width = view.source.frame.columns;
    let along = view.columns.along;
    if 0 < along.first || along.end < width {
        return None;
    }
    Some(part(view, factor, row, along, 0, width))
}

// A whole row is written to out: up to the seam and from there on, with zeros where cells do not count.
#[inline(always)]
pub fn copied(view: &View<'_>, factor: Factor, row: usize, out: &mut [i16])
    requires { length out.old ≡ view.now.source.frame.columns }
    ensures { out.new ≡ tabulate view.now.source.frame.columns (plane_at (on_factor (checked_source view.now.source) factor) row) }
{
    let width = view.source.frame.columns;
    let along = view.columns.along;
    let round = view.columns.round;
    let first = along.first;
    let seam = along.end;
    let end = round.end;
    fill(&mut out[0..first], 0);
    copy(
        part(view, factor, row, along, first, seam),
        &mut out[first..seam],
    );
    if seam < end {
        copy(
            part(view, factor, row, round, seam, end),
            &mut out[seam..end],
        );
    }
    fill(&mut out[end..width], 0);
}

// The same of a plane of ones or levels.
#[inline(always)]
pub fn copied_row(source: &CheckedSource<'_>, row: usize, out: &mut [i16])
    requires { (plane_number source.now.plane ≤ 2) × (length out.old ≡ source.now.frame.columns) }
    ensures { out.new ≡ tabulate source.now.frame.columns (plane_at (checked_source source.now) row) }
{
    let view = view_of(source);
    match factors_of(source.plane) {
        Factors::Level(factor) => copied(&view, factor, row, out),
        Factors::Square(_) | Factors::Product(..) => unreachable!(),
    }
}
