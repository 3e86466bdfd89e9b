// The flat parts of a diamond's or hexagon's edges: the rows that enter and leave whole, summed across the row.

ghost use Rattle.std.specs.Prelude.{◌≡◌, leb, pos, ◌+ℤ◌, get_or};
ghost use Rattle.numbers.specs.Grid.{tabulate};
ghost use Rattle.numbers.specs.Sum.{sum_to, pick};
ghost use Rattle.numbers.specs.Wrap.{wrap};
ghost use Rattle.spec_picture.specs.Picture.{plane_at};
ghost use Rattle.spec_picture.specs.Checked.{checked_source};
ghost use Rattle.spec_picture.specs.Frame.{column_gap};
ghost use Rattle.spec_rows.specs.Rows.{enter_leave};
ghost use Rattle.slope_rows.specs.Requires.{FlatEdgeRequires};

use row_loops::sliding_sums;
use row_steps::step;
use spec_picture::CheckedSource;

// From row i to i+1, the columns at most k away at half height h: what enters there less what leaves is added to the work area. The buffer for a row is used on the way.
// Not inlined: within its caller it moved the loops over slopes, which then took 1.1 times as long.
#[tactic(auto, unfolding(spec_picture::specs::Frame::frame_legal))]
#[inline(never)]
pub fn add_flat_edge(
    source: &CheckedSource<'_>,
    i: usize,
    h: usize,
    k: usize,
    work: &mut [i64],
    row: &mut [i64],
)
    requires { FlatEdgeRequires source.now.frame i h k work.old row.old }
    ensures { work.new ≡ tabulate source.now.frame.columns (λ j. wrap (get_or work.old j (pos 0) +ℤ sum_to source.now.frame.columns (λ n. pick (leb (column_gap source.now.frame j n) k) (enter_leave source.now.frame (plane_at (checked_source source.now)) i h n)))) }
{
    let columns = source.frame.columns;
    // A buffer for the widest row, since there is no heap.
    let mut change = [0i64; 1024];
    step::step_difference(source, i, h, &mut change[..columns]);
    sliding_sums::neighbour_sums(source.frame.columns_wrap, &change[..columns], k, row);
    step::add(work, row);
}
