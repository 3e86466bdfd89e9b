// A row of any plane as numbers of 64 bits: the plane's values where cells count, and zeros elsewhere.
// For callers that have checked their inputs.

ghost use Rattle.std.specs.Prelude.{◌≡◌, ◌+◌, length};
ghost use Rattle.numbers.specs.Grid.{tabulate};
ghost use Rattle.spec_picture.specs.Picture.{plane_at};
ghost use Rattle.spec_picture.specs.Checked.{checked_source};
ghost use Rattle.plane_rows.specs.LevelRows.{Cells};
ghost use Rattle.plane_rows.specs.Columns.{Stretch};

use crate::factors::{Factors, factors_of};
use crate::level_rows::part;
use crate::overlaps::Overlap;
use crate::plane_values::{fill, multiply, widen};
use crate::view::{View, view_of};
use spec_picture::CheckedSource;

// A stretch of columns that count if the row does.
fn values(view: &View<'_>, row: usize, stretch: Overlap, out: &mut [i64])
    requires { Stretch view.now.source.frame view.now.source.shift stretch × (stretch.first + length out.old ≡ stretch.end) }
    ensures { Cells (plane_at (checked_source view.now.source)) row stretch.first stretch.end out.new }
{
    let start = stretch.first;
    let end = stretch.end;
    match factors_of(view.source.plane) {
        Factors::Level(q) => widen(part(view, q, row, stretch, start, end), out),
        Factors::Square(q) => {
            let levels = part(view, q, row, stretch, start, end);
            multiply(levels, levels, out);
        }
        Factors::Product(p, q) => {
            let levels = part(view, p, row, stretch, start, end);
            multiply(levels, part(view, q, row, stretch, start, end), out);
        }
    }
}

// Row `row` of the plane, up to the seam and from there on.
pub fn plane_row(source: &CheckedSource<'_>, row: usize, out: &mut [i64])
    requires { length out.old ≡ source.now.frame.columns }
    ensures { out.new ≡ tabulate source.now.frame.columns (plane_at (checked_source source.now) row) }
{
    let view = view_of(source);
    let width = source.frame.columns;
    let along = view.columns.along;
    let round = view.columns.round;
    let first = along.first;
    let seam = along.end;
    let end = round.end;
    fill(&mut out[0..first], 0);
    values(&view, row, along, &mut out[first..seam]);
    if seam < end {
        values(&view, row, round, &mut out[seam..end]);
    }
    fill(&mut out[end..width], 0);
}
