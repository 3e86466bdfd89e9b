// The rival's reading of a table with any contents: four corners, "with sums that wrap at 64 bits".
use crate::cases::Case;
use crate::random;
use crate::rival::{near, reach, total};
use spec_picture::Cell;

// A case and the table that is read.
#[derive(Clone, Copy)]
pub struct Table<'a> {
    pub case: Case,
    pub entries: &'a [i64],
}

impl<'a> Table<'a> {
    // T at the last of so many rows and columns: "T being 0 left of and above the picture, and a corner past its last row or column
    // being taken on that last one".
    fn corner(&self, rows: usize, columns: usize) -> i64 {
        let c = self.case;
        let last = (
            rows.min(c.rows).checked_sub(1),
            columns.min(c.columns).checked_sub(1),
        );
        match last {
            (Some(row), Some(column)) => random::read(self.entries, c.place(Cell { row, column })),
            _ => 0,
        }
    }

    // The rectangle that has the rows from top up to bottom and the columns from left up to right.
    fn between(&self, top: usize, bottom: usize, left: usize, right: usize) -> i64 {
        let inner = self
            .corner(bottom, right)
            .wrapping_add(self.corner(top, left));
        let outer = self
            .corner(top, right)
            .wrapping_add(self.corner(bottom, left));
        inner.wrapping_sub(outer)
    }

    // The rectangle of so many rows and columns around a cell; where columns wrap, each of its columns is read by itself.
    fn rectangle(&self, on: Cell, rows: usize, columns: usize) -> i64 {
        let c = self.case;
        let top = on.row.saturating_sub(rows);
        let bottom = on.row.saturating_add(rows).saturating_add(1);
        if c.columns_wrap {
            return total(c.columns, |column| {
                if near(c, on.column, column, columns) {
                    self.between(top, bottom, column, column.saturating_add(1))
                } else {
                    0
                }
            });
        }
        let left = on.column.saturating_sub(columns);
        let right = on.column.saturating_add(columns).saturating_add(1);
        self.between(top, bottom, left, right)
    }

    // The window's sum on a cell: "A diamond or hexagon is read as one-row rectangles."
    pub fn reading(&self, on: Cell) -> i64 {
        let c = self.case;
        if c.shape == 1 {
            return self.rectangle(on, c.first, c.second);
        }
        total(c.rows, |row| match reach(c, row.abs_diff(on.row)) {
            Some(reach) => self.rectangle(Cell { row, ..on }, 0, reach),
            None => 0,
        })
    }
}
