// One row of a plane enters a row of sums, and one leaves it: straight from the levels.
// For callers that have checked their inputs.

ghost use Rattle.std.specs.Prelude.{◌≡◌, ◌+◌, pos, ◌+ℤ◌, ◌-ℤ◌, length, get_or};
ghost use Rattle.numbers.specs.Grid.{tabulate};
ghost use Rattle.numbers.specs.Wrap.{wrap};
ghost use Rattle.spec_picture.specs.Picture.{plane_at};
ghost use Rattle.spec_picture.specs.Checked.{checked_source};
ghost use Rattle.plane_rows.specs.Columns.{Stretch};
ghost use Rattle.row_loops.specs.Added.{Numbers};

use crate::entering_loops::{
    add_number, levels_enter_and_leave, products_enter_and_leave, squares_enter_and_leave,
};
use plane_rows::factors::{Factor, Factors, factors_of};
use plane_rows::level_rows::part;
use plane_rows::overlaps::Overlap;
use plane_rows::view::{View, view_of};
use spec_picture::CheckedSource;

// Every number is of 64 bits. The loop is there for the proof alone: it reads each number, whose type then says so, and keeps nothing, so the compiler leaves no code of it.
// Not one function with `checks::levels::levels_fit`: each type has its own range, so one for both would need a trait with that range and a law for each type.
fn numbers_fit(sums: &[i64])
    ensures { Numbers sums.now }
{
    for k in 0..sums.len() {
        let number = sums[k];
    }
}

// The sums of a stretch of columns that count: row `enter` is added, and row `leave` taken away. Rows of plane 0 count whole or not at all there, so one number says what they change.
fn columns_that_count(
    view: &View<'_>,
    enter: usize,
    leave: usize,
    stretch: Overlap,
    sums: &mut [i64],
)
    requires { Stretch view.now.source.frame view.now.source.shift stretch × (stretch.first + length sums.old ≡ stretch.end) }
    ensures { sums.new ≡ tabulate (length sums.old) (λ k. wrap (get_or sums.old k (pos 0) +ℤ (plane_at (checked_source view.now.source) enter (stretch.first + k) -ℤ plane_at (checked_source view.now.source) leave (stretch.first + k)))) }
{
    let first = stretch.first;
    let end = stretch.end;
    match factors_of(view.source.plane) {
        Factors::Level(Factor::One) => {
            add_number(
                i64::from(view.has_row(enter)) - i64::from(view.has_row(leave)),
                sums,
            );
        }
        Factors::Level(q) => {
            let entering = part(view, q, enter, stretch, first, end);
            levels_enter_and_leave(entering, part(view, q, leave, stretch, first, end), sums);
        }
        Factors::Square(q) => {
            let a = part(view, q, enter, stretch, first, end);
            let c = part(view, q, leave, stretch, first, end);
            squares_enter_and_leave(a, c, sums);
        }
        Factors::Product(p, q) => {
            let a = part(view, p, enter, stretch, first, end);
            let b = part(view, q, enter, stretch, first, end);
            let c = part(view, p, leave, stretch, first, end);
            let d = part(view, q, leave, stretch, first, end);
            products_enter_and_leave(a, b, c, d, sums);
        }
    }
}

// Row `enter` of the plane is added to the sums, and row `leave` is subtracted; a row past the picture's last has no cell.
pub fn enter_and_leave(source: &CheckedSource<'_>, enter: usize, leave: usize, sums: &mut [i64])
    requires { length sums.old ≡ source.now.frame.columns }
    ensures { sums.new ≡ tabulate source.now.frame.columns (λ j. wrap (get_or sums.old j (pos 0) +ℤ (plane_at (checked_source source.now) enter j -ℤ plane_at (checked_source source.now) leave j))) }
{
    let view = view_of(source);
    numbers_fit(sums);
    // Nothing changes where neither row counts, as most of those of a window that is higher than the picture.
    if !view.has_row(enter) && !view.has_row(leave) {
        return;
    }
    let along = view.columns.along;
    let round = view.columns.round;
    let seam = along.end;
    let end = round.end;
    columns_that_count(&view, enter, leave, along, &mut sums[along.first..seam]);
    if seam < end {
        columns_that_count(&view, enter, leave, round, &mut sums[seam..end]);
    }
}
