// The rival: sums straight from the documents' definitions, each cell of the picture asked whether it belongs.
use crate::cases::{Case, Pictures};
use crate::random;
use spec_picture::{Cell, Inputs, Refusal, Source};

pub mod corners; // corners.rt: the rival's reading of a table
pub mod moments; // moments.rt: the rival's statistics

// The sum of what f gives below n, wrapped at 64 bits.
pub fn total<F: Fn(usize) -> i64 + Drop>(n: usize, f: F) -> i64
    requires { F.IsAlwaysCallable f }
{
    (0..n).fold(0i64, |s, k| s.wrapping_add(f(k)))
}

// How far a row of the window reaches that lies p rows from its cell, and none where the window has no such row.
fn reach(c: Case, p: usize) -> Option<usize> {
    match c.shape {
        1 => (p <= c.first).then_some(c.second),
        2 => c.first.checked_sub(p),
        _ => {
            let rest = c.first.saturating_add(c.second).saturating_sub(p);
            (p <= c.second).then_some(rest)
        }
    }
}

// Whether one of the columns on-reach to on+reach is this one: where columns wrap, so many steps to the right or to the left lead there, "its last column to its first".
pub fn near(c: Case, on: usize, column: usize, reach: usize) -> bool {
    if !c.columns_wrap {
        return column.abs_diff(on) <= reach;
    }
    let right = match column.checked_sub(on) {
        Some(steps) => steps,
        None => column.wrapping_add(c.columns).wrapping_sub(on),
    };
    right <= reach || c.columns.wrapping_sub(right) <= reach
}

// "11, widest row above columns with the switch on", of a legal window
pub fn too_wide(c: Case) -> Option<Refusal> {
    let widest = reach(c, 0).unwrap_or(0).saturating_mul(2).saturating_add(1);
    (c.columns_wrap && widest > c.columns).then_some(Refusal::Width)
}

// What the library must answer where the rival has this value.
pub fn unless_too_wide<T: Copy + Drop>(c: Case, value: T) -> Result<T, Refusal> {
    match too_wide(c) {
        Some(refusal) => Err(refusal),
        None => Ok(value),
    }
}

// The plane's value at a counting cell, where f and g have these levels.
fn plane_value(plane: u32, f: i16, g: i16) -> i64 {
    let f = i64::from(f);
    let g = i64::from(g);
    match plane {
        0 => 1,
        1 => f,
        2 => g,
        3 => f * f,
        4 => g * g,
        _ => f * g,
    }
}

// Where a shift leads from row or column n of so many, and none where that is outside.
fn shifted(n: usize, by: i32, count: usize) -> Option<usize> {
    n.checked_add_signed(by as isize).filter(|to| *to < count)
}

// The column that a shift leads to round the circle of so many, which is always one of them: "the wrapped column"
fn round(n: usize, by: i32, count: usize) -> Option<usize> {
    let steps = (by.unsigned_abs() as usize).checked_rem(count)?;
    let forward = if by < 0 {
        count.wrapping_sub(steps)
    } else {
        steps
    };
    n.wrapping_add(forward).checked_rem(count)
}

// What the rival is given: a case and its two pictures.
#[derive(Clone, Copy)]
pub struct Given<'a> {
    pub case: Case,
    pub f: &'a [i16],
    pub g: &'a [i16],
}

impl<'a> Given<'a> {
    pub fn new(case: Case, pictures: &'a Pictures) -> Given<'a> {
        Given {
            case,
            f: pictures.f(),
            g: pictures.g(),
        }
    }

    // What a call of the library takes.
    pub fn inputs(&self) -> Inputs<'a> {
        let c = self.case;
        let source = Source {
            frame: c.frame(),
            f: self.f,
            g: self.g,
            shift: c.shift,
            plane: c.plane,
        };
        Inputs {
            source,
            window: c.window(),
        }
    }

    // "A cell (m, n) counts when it and (m+u, n+v) are both inside the picture." "At every other cell it is 0." The cell is inside; "A counting cell of g is found at the
    // wrapped column" where columns wrap.
    fn value(&self, cell: Cell) -> i64 {
        let c = self.case;
        let column = if c.columns_wrap {
            round(cell.column, c.shift.right, c.columns)
        } else {
            shifted(cell.column, c.shift.right, c.columns)
        };
        let to = (shifted(cell.row, c.shift.down, c.rows), column);
        match to {
            (Some(row), Some(column)) => plane_value(
                c.plane,
                random::read(self.f, c.place(cell)),
                random::read(self.g, c.place(Cell { row, column })),
            ),
            _ => 0,
        }
    }

    // The sum over the cells of a row that are at most so far from a column.
    fn row_sum(&self, row: usize, on: usize, reach: usize) -> i64 {
        let c = self.case;
        total(c.columns, |column| {
            if near(c, on, column, reach) {
                self.value(Cell { row, column })
            } else {
                0
            }
        })
    }

    // "the sum of the plane over the window" that sits on a cell
    pub fn sum(&self, on: Cell) -> i64 {
        let c = self.case;
        total(c.rows, |row| match reach(c, row.abs_diff(on.row)) {
            Some(reach) => self.row_sum(row, on.column, reach),
            None => 0,
        })
    }

    // The sum of a case that differs.
    fn sum_of(&self, case: Case, on: Cell) -> i64 {
        Given { case, ..*self }.sum(on)
    }

    // The sum of another plane.
    pub fn plane_sum(&self, plane: u32, on: Cell) -> i64 {
        let c = self.case;
        self.sum_of(Case { plane, ..c }, on)
    }

    // "T(i, j) = the plane's sum over all (p, q) with p ≤ i and q ≤ j"
    pub fn entry(&self, last: Cell) -> i64 {
        total(last.row.saturating_add(1), |row| {
            total(last.column.saturating_add(1), |column| {
                self.value(Cell { row, column })
            })
        })
    }

    // The work area: a rectangle's column sum over rows i-a to i+a; a diamond's or hexagon's window sum.
    pub fn work(&self, cell: Cell) -> i64 {
        let c = self.case;
        match c.shape {
            1 => self.sum_of(Case { second: 0, ..c }, cell),
            _ => self.sum(cell),
        }
    }
}
