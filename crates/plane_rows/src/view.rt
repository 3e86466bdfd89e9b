// Checked inputs with the rows and the columns that count: found once, and handed on.
ghost use Rattle.std.specs.Prelude.{◌≡◌, ◌&&◌, leb, ltb};
ghost use Rattle.plane_rows.specs.Views.{Counting};

use crate::columns::{Columns, columns_of};
use crate::overlaps::{Overlap, overlap_of};
use spec_picture::CheckedSource;

// Two pictures, a shift and a plane, and which rows and columns count: "A cell (m, n) counts when it and (m+u, n+v) are both inside the picture."
// Where columns wrap all of them count.
#[derive(Clone, Copy)]
pub struct View<'a> {
    pub source: CheckedSource<'a>,
    pub rows: Overlap,
    pub columns: Columns,
    pub ghost counting: { Counting source.frame source.shift rows columns },
}

// The view of checked inputs. Inlined, as all that takes a view apart for a row is (`part`, `own_row`, `copied`): with these as calls, tables of pictures of one
// to 16 columns took 1.1 to 1.4 times as long.
#[inline(always)]
pub fn view_of<'a>(source: &CheckedSource<'a>) -> View<'a>
    ensures { result.source ≡ source.now }
{
    View {
        source: *source,
        rows: overlap_of(source.frame.rows, source.shift.down),
        columns: columns_of(source.frame, source.shift.right),
    }
}

impl View<'_> {
    // Some cell of the row may count.
    #[inline(always)]
    pub fn has_row(&self, row: usize) -> bool
        ensures { result ≡ (leb self.now.rows.first row && ltb row self.now.rows.end) }
    {
        self.rows.first <= row && row < self.rows.end
    }
}
