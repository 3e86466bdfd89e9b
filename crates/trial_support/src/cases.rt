// What a call is given, with shapes and planes as numbers: not `Shape` and `Plane`, since the rival shares no enum with what it tries.
use crate::random;
use crate::random::CELLS;
use spec_picture::{Cell, Frame, Shift, Window};

#[derive(Clone, Copy)]
pub struct Case {
    pub rows: usize,
    pub columns: usize,
    pub columns_wrap: bool,
    pub shape: u32, // 1 rectangle, 2 diamond, 3 hexagon
    pub first: usize,
    pub second: usize,
    pub shift: Shift,
    pub plane: u32, // "0, one; 1, f(m, n); 2, g(m+u, n+v); 3 and 4, the squares of those two; 5, their product"
    pub seed: u64, // of its pictures
}

// A number of a window as a call takes it.
fn window_number(n: usize) -> i32 {
    i32::try_from(n).unwrap_or(i32::MAX)
}

impl Case {
    pub fn with_size(self, rows: usize, columns: usize) -> Case {
        Case {
            rows,
            columns,
            ..self
        }
    }

    pub fn frame(self) -> Frame {
        Frame {
            rows: self.rows,
            columns: self.columns,
            columns_wrap: self.columns_wrap,
        }
    }

    pub fn window(self) -> Window {
        Window {
            shape: self.shape,
            first: window_number(self.first),
            second: window_number(self.second),
        }
    }

    // The number of its cells.
    pub fn cells(self) -> usize {
        self.rows.wrapping_mul(self.columns)
    }

    // The place of a cell in its pictures.
    pub fn place(self, cell: Cell) -> usize {
        cell.row
            .wrapping_mul(self.columns)
            .wrapping_add(cell.column)
    }

    // The k-th cell in row order.
    pub fn cell(self, k: usize) -> Cell {
        Cell {
            row: k.checked_div(self.columns).unwrap_or(0),
            column: k.checked_rem(self.columns).unwrap_or(0),
        }
    }

    // The k-th cell in an order that soon reaches all parts of the picture: each of them once, where their number has no factor 7919.
    pub fn scattered(self, k: usize) -> Cell {
        let place = k.wrapping_mul(7919).checked_rem(self.cells());
        self.cell(place.unwrap_or(0))
    }

    // Its two pictures.
    pub fn pictures(self) -> Pictures {
        let cells = self.cells().min(CELLS);
        Pictures {
            f: random::picture(cells, self.seed),
            g: random::picture(cells, random::next_state(self.seed)),
            cells,
        }
    }
}

// The two pictures of a case: as many levels of each area as there are cells. Arrays with a length beside them, since the trials have no heap.
#[derive(Clone, Copy)]
pub struct Pictures {
    f: [i16; CELLS],
    g: [i16; CELLS],
    cells: usize,
}

impl Pictures {
    pub fn f(&self) -> &[i16] {
        &self.f[..self.cells.min(CELLS)]
    }

    pub fn g(&self) -> &[i16] {
        &self.g[..self.cells.min(CELLS)]
    }
}

// A window number: a small one in five of six, else any that a shape allows.
fn chosen_number(n: u64, shape: u32) -> usize {
    let most = match (n / 3 % 6, shape) {
        (0, 3) => 64,
        (0, _) => 128,
        _ => 5,
    };
    (n / 64 % most) as usize
}

// A number of a shift: none, a small one, one inside the pictures of the trials, or any up to its limit.
fn shift_number(n: u64, inside: u16, limit: u16) -> i32 {
    let most = match n / 3 % 4 {
        0 => 0,
        1 => 2,
        2 => inside,
        _ => limit,
    };
    let raised = n / 64 % (2 * u64::from(most) + 1);
    raised as i32 - i32::from(most)
}

// The k-th case whose columns clip: all pairs of a shape and a plane in turn, of up to 24 rows and 40 columns. Three of every 24 have one row, one column, or both; two of
// every 36 have 256 rows or 1,024 columns.
fn clipped(k: usize) -> Case {
    let n = |place| random::at(2024, k.wrapping_mul(8).wrapping_add(place));
    let shape = [1u32, 2, 3][k % 3];
    let case = Case {
        rows: (n(0) / 64 % 24 + 1) as usize,
        columns: (n(1) / 64 % 40 + 1) as usize,
        columns_wrap: false,
        shape,
        first: chosen_number(n(2), shape),
        second: if shape == 2 {
            0
        } else {
            chosen_number(n(3), shape)
        },
        shift: Shift {
            down: shift_number(n(4), 20, 255),
            right: shift_number(n(5), 30, 1023),
        },
        plane: [0u32, 1, 2, 3, 4, 5][k / 3 % 6],
        seed: n(6),
    };
    match (k % 24, k % 36) {
        (0, _) => case.with_size(1, 1),
        (7, _) => case.with_size(1, case.columns),
        (17, _) => case.with_size(case.rows, 1),
        (_, 5) => case.with_size(256, 4),
        (_, 22) => case.with_size(1, 1024),
        _ => case,
    }
}

// The case with a window of its shape whose widest row reaches so far to both sides; n chooses its height.
fn with_width(case: Case, width: usize, n: u64) -> Case {
    let height = chosen_number(n, case.shape);
    match case.shape {
        1 => Case {
            first: height,
            second: width,
            ..case
        },
        2 => Case {
            first: width,
            second: 0,
            ..case
        },
        _ => Case {
            first: width.saturating_sub(height),
            second: height.min(width),
            ..case
        },
    }
}

// The k-th case whose columns wrap: the k-th whose columns clip, two of five with 1 to 7 columns and a shift that goes round often. Of eight windows one is too wide for the
// columns, two are as wide as they allow, and the others are narrower.
fn wrapped(k: usize) -> Case {
    let n = |place| random::at(2025, k.wrapping_mul(4).wrapping_add(place));
    let base = clipped(k);
    let few = k % 5 < 2;
    let case = Case {
        columns: if few {
            (n(0) / 64 % 7 + 1) as usize
        } else {
            base.columns
        },
        columns_wrap: true,
        shift: if few {
            Shift {
                right: (n(1) / 64 % 2047) as i32 - 1023,
                ..base.shift
            }
        } else {
            base.shift
        },
        ..base
    };
    let widest = case.columns.saturating_sub(1) / 2;
    let width = match n(2) / 3 % 8 {
        0 => widest.saturating_add(1),
        1 | 2 => widest,
        _ => (n(2) / 64) as usize % widest.max(1),
    };
    with_width(case, width.min(127), n(3))
}

// The k-th case of a border.
pub fn kth(k: usize, columns_wrap: bool) -> Case {
    if columns_wrap { wrapped(k) } else { clipped(k) }
}

// The words after the name of a group that say its border.
pub fn border(columns_wrap: bool) -> &'static str {
    if columns_wrap {
        ", columns that wrap"
    } else {
        ""
    }
}
