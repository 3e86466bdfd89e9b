// The values of a part of a row, summed: one simple loop for levels, and one for products.
// For callers that have checked their inputs.
#![tactic(auto)]

ghost use Rattle.std.specs.Prelude.{◌≡◌, ◌+◌, ◌-◌, ◌≤◌, ◌<◌, IfSome, pos, ◌*ℤ◌, length, get_or};
ghost use Rattle.numbers.specs.Sum.{sum_to};
ghost use Rattle.numbers.specs.Wrap.{wrap};
ghost use Rattle.spec_picture.specs.Picture.{plane_at};
ghost use Rattle.spec_picture.specs.Checked.{given, checked_source};
ghost use Rattle.spec_picture.specs.Window.{shape_of, width};
ghost use Rattle.plane_rows.specs.LevelRows.{AllCount};
ghost use Rattle.direct_sum.specs.Near.{NearRequires, Around, StretchOf, near_row};

use arithmetic::{machine, wrapping};
use plane_rows::factors::{Factor, Factors, factors_of};
use plane_rows::level_rows::part;
use plane_rows::overlaps::Overlap;
use plane_rows::view::View;
use spec_picture::CheckedWindow;
use windows::{clip, shape};

// The levels' sum. That of 1,024 is of 26 bits, and a loop in 32 takes less time than one in 64: it is 1.3 times as fast at 15 x 15, and 2.5 to 4
// times at windows 255 wide. So this is not the loop of `products_total` with a closure.
#[tactic(auto, using(crate::proofs::Totals::exact_none))]
fn levels_total(levels: &[i16]) -> i64
    requires { length levels.now ≤ 1024 }
    ensures { result ≡ sum_to (length levels.now) (λ k. get_or levels.now k (pos 0)) }
{
    let mut s = 0i32;
    for level in levels {
        s += i32::from(*level);
    }
    i64::from(s)
}

// The sum of products of levels; wrapped, so that no bound is required of them.
#[tactic(auto, using(numbers::proofs::Running::running_none))]
fn products_total(a: &[i16], b: &[i16]) -> i64
    requires { length b.now ≡ length a.now }
    ensures { result ≡ wrap (sum_to (length a.now) (λ k. get_or a.now k (pos 0) *ℤ get_or b.now k (pos 0))) }
{
    let mut s = 0i64;
    for k in 0..a.len() {
        s = wrapping::wrapping_add(s, machine::product(a[k], b[k]));
    }
    s
}

// The sum of the columns from `start` up to `end` of a stretch of a row, all of which count if the row does. Of plane 0 it is how many there are. Inlined, as
// `window_sums::sum` is and for the same reason.
#[inline(always)]
#[tactic(auto, unfolding(spec_picture::specs::Frame::frame_legal))]
fn part_sum(view: &View<'_>, row: usize, stretch: Overlap, start: usize, end: usize) -> i64
    requires { AllCount view.now.source.frame view.now.source.shift stretch start end }
    ensures { result ≡ wrap (sum_to (end - start) (λ k. plane_at (checked_source view.now.source) row (start + k))) }
{
    if !view.has_row(row) {
        return 0;
    }
    match factors_of(view.source.plane) {
        Factors::Level(Factor::One) => (end - start) as i64,
        Factors::Level(q) => levels_total(part(view, q, row, stretch, start, end)),
        Factors::Square(q) => {
            let levels = part(view, q, row, stretch, start, end);
            products_total(levels, levels)
        }
        Factors::Product(p, q) => {
            let levels = part(view, p, row, stretch, start, end);
            products_total(levels, part(view, q, row, stretch, start, end))
        }
    }
}

// The sum of the columns from `start` up to `end` of a row: of those that count, in one of the two stretches or both.
#[inline(never)]
fn row_sum(view: &View<'_>, row: usize, start: usize, end: usize) -> i64
    requires { (start ≤ end) × (end ≤ view.now.source.frame.columns) }
    ensures { result ≡ wrap (sum_to (end - start) (λ k. plane_at (checked_source view.now.source) row (start + k))) }
{
    let along = view.columns.along;
    let round = view.columns.round;
    let seam = along.end;
    let last = round.clip(end);
    if seam <= start {
        return part_sum(view, row, round, round.clip(start), last);
    }
    let s = part_sum(view, row, along, along.clip(start), along.clip(end));
    if last <= seam {
        return s;
    }
    wrapping::wrapping_add(s, part_sum(view, row, round, seam, last))
}

// The sum of the columns of a row that are at most `reach` from a column: along the row, and where columns wrap past an end of it too.
pub fn round_sum(view: &View<'_>, row: usize, column: usize, reach: usize) -> i64
    requires { NearRequires view.now.source.frame column reach }
    ensures { result ≡ near_row (checked_source view.now.source) column reach row }
{
    let columns = view.source.frame.columns;
    let start = clip::low(column, reach);
    let end = clip::high(column, reach, columns);
    let s = row_sum(view, row, start, end);
    if !view.source.frame.columns_wrap {
        return s;
    }
    let past = column + reach + 1;
    if columns < past {
        return wrapping::wrapping_add(s, row_sum(view, row, 0, past - columns));
    }
    if column < reach {
        let first = columns - (reach - column);
        return wrapping::wrapping_add(s, row_sum(view, row, first, columns));
    }
    s
}

// The stretch, if the columns that are at most `width` from a column are in it.
#[inline(always)]
fn around(stretch: Overlap, column: usize, width: usize) -> Option<Overlap>
    requires { (column < 1024) × (width ≤ 127) × (stretch.end ≤ 1024) }
    ensures { IfSome result (λ found. (found ≡ stretch) × Around stretch column width) }
{
    if column < stretch.first + width {
        return None;
    }
    if stretch.end <= column + width {
        return None;
    }
    Some(stretch)
}

// The stretch that holds all counting cells of a window, if one does: where columns clip there is one only.
#[tactic(auto, unfolding(spec_picture::specs::Frame::frame_legal))]
#[inline(always)]
pub fn stretch_of(view: &View<'_>, window: CheckedWindow, column: usize) -> Option<Overlap>
    requires { column < view.now.source.frame.columns }
    ensures { IfSome result (λ found. StretchOf view.now.source.frame view.now.source.shift view.now.columns found column (width (shape_of (given window)))) }
{
    let along = view.columns.along;
    if !view.source.frame.columns_wrap {
        return Some(along);
    }
    let stretch = if column < along.end {
        along
    } else {
        view.columns.round
    };
    around(stretch, column, shape::width(window))
}

// The sum of the columns of a row that are at most `reach` from a column, where the stretch holds them.
#[inline(always)]
pub fn near_sum(view: &View<'_>, stretch: Overlap, row: usize, column: usize, reach: usize) -> i64
    requires near { NearRequires view.now.source.frame column reach }
    requires stretch { StretchOf view.now.source.frame view.now.source.shift view.now.columns stretch column reach }
    ensures { result ≡ near_row (checked_source view.now.source) column reach row }
{
    let start = clip::low(column, reach);
    let end = clip::high(column, reach, view.source.frame.columns);
    part_sum(view, row, stretch, stretch.clip(start), stretch.clip(end))
}
