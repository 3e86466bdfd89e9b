// Reading the table: the table's number at a corner, the rectangle between four of them, and a window of such rectangles.
// For callers that have checked their inputs.
#![tactic(auto)]

ghost use Rattle.std.specs.Prelude.{◌≡◌, ◌<◌, ◌≤◌, T, true, length};
ghost use Rattle.numbers.specs.Wrap.{wrap};
ghost use Rattle.spec_picture.specs.Frame.{Within, frame_legal, cells};
ghost use Rattle.spec_picture.specs.Window.{shape_of, width};
ghost use Rattle.spec_picture.specs.Checked.{given};
ghost use Rattle.spec_table.specs.Table.{corner, four_corners, round_the_edge, read_rectangle, read_rows, read_table};
ghost use Rattle.table.specs.Ends.{beyond_an_end, Round};

use arithmetic::wrapping;
use spec_picture::{Cell, CheckedTable, CheckedWindow, Frame};
use std::ops::Range;
use windows::{clip, reaches, shape};

// The table's number with x rows and y columns up to it: "T being 0 left of and above the picture, and a corner past its last
// row or column being taken on that last one".
fn corner(table: &CheckedTable<'_>, x: usize, y: usize) -> i64
    ensures { result ≡ corner table.now.frame table.now.numbers.now x y }
{
    if x == 0 || y == 0 {
        return 0;
    }
    let row = x.min(table.frame.rows) - 1;
    let column = y.min(table.frame.columns) - 1;
    table.numbers[row * table.frame.columns + column]
}

// "the four corners of equation 7": the sum of a range of rows and a range of columns. Inlined, since its callers are few and a reading is short.
#[inline(always)]
fn four_corners(table: &CheckedTable<'_>, rows: Range<usize>, columns: Range<usize>) -> i64
    ensures { result ≡ wrap (four_corners table.now.frame table.now.numbers.now rows.start rows.end columns.start columns.end) }
{
    let bottom_right = corner(table, rows.end, columns.end);
    let top_right = corner(table, rows.start, columns.end);
    let bottom_left = corner(table, rows.end, columns.start);
    let top_left = corner(table, rows.start, columns.start);
    let up_to_right = wrapping::wrapping_sub(bottom_right, top_right);
    let without_left = wrapping::wrapping_sub(up_to_right, bottom_left);
    wrapping::wrapping_add(without_left, top_left)
}

// A row of half width b on a column goes on at the other end of the picture's.
fn goes_round(frame: Frame, b: usize, column: usize) -> bool
    requires { (column < frame.columns) × (frame.columns ≤ 1024) × (b ≤ 127) }
    ensures { result ≡ beyond_an_end frame b column }
{
    frame.columns_wrap && (frame.columns < column + b + 1 || column < b)
}

// The same as the four corners, where the range of columns may be empty: then nothing is read.
fn stretch(table: &CheckedTable<'_>, rows: Range<usize>, columns: Range<usize>) -> i64
    ensures { result ≡ wrap (four_corners table.now.frame table.now.numbers.now rows.start rows.end columns.start columns.end) }
{
    if columns.start == columns.end {
        return 0;
    }
    four_corners(table, rows, columns)
}

// What lies past an end of the row: of columns past the last one the first ones, and of columns before the first one the last ones. Of a window that fits one of the two
// stretches is empty.
#[inline(always)]
fn round_the_edge(table: &CheckedTable<'_>, rows: Range<usize>, b: usize, column: usize) -> i64
    requires { (column < table.now.frame.columns) × (table.now.frame.columns ≤ 1024) × (b ≤ 127) }
    ensures { result ≡ wrap (round_the_edge true table.now.frame table.now.numbers.now rows.start rows.end b column) }
{
    let columns = table.frame.columns;
    let past = clip::low(column + b + 1, columns);
    let before = clip::low(columns, clip::low(b, column));
    let first = stretch(table, rows.start..rows.end, 0..past);
    let last = stretch(table, rows, before..columns);
    wrapping::wrapping_add(first, last)
}

// The rectangle of half sizes a and b on a cell, which may go round, or does not. Whether a window does is found once, by its widest row, so that one which does not is read as
// where columns clip. Inlined here and below: called, this made a reading take 1.6 times as long.
#[tactic(auto, unfolding(spec_picture::specs::Frame::frame_legal))]
#[inline(always)]
fn rectangle(table: &CheckedTable<'_>, round: bool, a: usize, b: usize, cell: Cell) -> i64
    requires { Round table.now.frame b cell.column round × Within table.now.frame cell.row cell.column × (a ≤ 127) × (b ≤ 127) }
    ensures { result ≡ wrap (read_rectangle table.now.frame table.now.numbers.now a b cell.row cell.column) }
{
    let top = clip::low(cell.row, a);
    let bottom = cell.row + a + 1;
    let left = clip::low(cell.column, b);
    let along = four_corners(table, top..bottom, left..cell.column + b + 1);
    if !round {
        return along;
    }
    let beyond = round_the_edge(table, top..bottom, b, cell.column);
    wrapping::wrapping_add(along, beyond)
}

// "A diamond or hexagon is read as one-row rectangles."
#[inline(always)]
fn row_by_row(table: &CheckedTable<'_>, round: bool, window: CheckedWindow, cell: Cell) -> i64
    requires { Round table.now.frame (width (shape_of (given window))) cell.column round × Within table.now.frame cell.row cell.column }
    ensures { result ≡ wrap (read_rows table.now.frame table.now.numbers.now (shape_of (given window)) cell.row cell.column) }
{
    let row = cell.row;
    let height = shape::height(window);
    let end = clip::high(row, height, table.frame.rows);
    let mut sum = 0i64;
    for m in clip::low(row, height)..end {
        let distance = clip::distance(row, m);
        let reach = reaches::reach(window, distance);
        let part = rectangle(table, round, 0, reach, Cell { row: m, ..cell });
        sum = wrapping::wrapping_add(sum, part);
    }
    sum
}

// The window sum on the cell: four corners for a rectangle, and row by row for the others.
#[inline(always)]
fn by_shape(table: &CheckedTable<'_>, round: bool, window: CheckedWindow, cell: Cell) -> i64
    requires { Round table.now.frame (width (shape_of (given window))) cell.column round × Within table.now.frame cell.row cell.column }
    ensures { result ≡ read_table table.now.frame table.now.numbers.now (given window) cell.row cell.column }
{
    if shape::is_rectangle(window) {
        let height = shape::height(window);
        let width = shape::width(window);
        rectangle(table, round, height, width, cell)
    } else {
        row_by_row(table, round, window, cell)
    }
}

// The same of a window that goes round. Not inlined, and without a table to point to, so that a window which does not keeps its table in registers.
#[inline(never)]
fn sum_round(frame: Frame, numbers: &[i64], window: CheckedWindow, cell: Cell) -> i64
    requires { T (frame_legal frame) × (length numbers.now ≡ cells frame) × (frame.columns_wrap ≡ true) × Within frame cell.row cell.column }
    ensures { result ≡ read_table frame numbers.now (given window) cell.row cell.column }
{
    by_shape(&CheckedTable { frame, numbers }, true, window, cell)
}

// The same of any window.
#[tactic(auto, unfolding(spec_picture::specs::Frame::frame_legal))]
pub fn window_sum(table: &CheckedTable<'_>, window: CheckedWindow, cell: Cell) -> i64
    requires { Within table.now.frame cell.row cell.column }
    ensures { result ≡ read_table table.now.frame table.now.numbers.now (given window) cell.row cell.column }
{
    if goes_round(table.frame, shape::width(window), cell.column) {
        return sum_round(table.frame, table.numbers, window, cell);
    }
    by_shape(table, false, window, cell)
}
