// From one row to the next of a diamond's or hexagon's window sums, by the slopes of its edges, which move on with it. Whether a call goes
// this way is decided in `row_session`.
#![tactic(auto)]

pub mod flat_edge; // flat_edge.rt: the flat parts of the edges
pub mod kept_slopes; // kept_slopes.rt: inputs whose window is no rectangle
pub mod padded_rows; // padded_rows.rt: rows of the padded plane
pub mod places; // places.rt: where the slopes are kept
pub mod seam; // seam.rt: the slopes that come in when they move on
pub mod slope_starts; // slope_starts.rt: the slopes where a call begins
pub mod edges; // edges.rt: many rows

ghost use Rattle.std.specs.Prelude.{◌≡◌, ◌≤◌, map};
ghost use Rattle.spec_picture.specs.Plane.{plane_number};
ghost use Rattle.slope_rows.specs.Edges.{edged, AddEdgesRequires, LeavingRequires, LeavingDone};

use crate::kept_slopes::SlantedInputs;
use crate::padded_rows::load;
use crate::places::{CallRow, FALLING_START, RISING_START, falling_places, rising_places};
use crate::seam::add_seam;
use slope_loops::loops;
use slope_loops::loops::Slope;
use slope_loops::padding::{ABOVE, ROW_LENGTH};

// The rows and the slopes are arrays apart here, and no struct: `slope_rows::edges::rows::rows_from` says why.

// From a row to the next: the flat parts and the slopes are added to the work area. Where a flat part is one column, a tip, a has the row that enters there, and c the
// one that leaves.
fn add_edges<S: Slope>(
    slanted: &SlantedInputs<'_>,
    here: CallRow,
    a: &[S::Value; ROW_LENGTH],
    c: &[S::Value; ROW_LENGTH],
    rises: &[S; ROW_LENGTH],
    falls: &[S; ROW_LENGTH],
    work: &mut [i64],
    out: &mut [i64],
)
    requires { S.Value.holds (plane_number slanted.now.inputs.source.plane) × AddEdgesRequires slanted.now here (map S.Value.value a.now) (map S.Value.value c.now) (map S.sum rises.now) (map S.sum falls.now) work.old out.old }
    ensures { (work.new ≡ edged slanted.now here.row work.old) × (out.new ≡ edged slanted.now here.row work.old) }
{
    let h = slanted.height;
    let k = slanted.width - h;
    let p = RISING_START + here.moved;
    let q = FALLING_START - here.moved;
    if k == 0 {
        loops::finish_tips(a, c, rises, falls, p, q, work, out);
        return;
    }
    flat_edge::add_flat_edge(&slanted.inputs.source, here.row, h, k, work, out);
    loops::finish(rises, falls, p, q, work, out);
}

// From a row to the next: the work area moves on, and so do the slopes; c has the row that leaves in the middle.
#[tactic(auto, unfolding(spec_picture::specs::Frame::frame_legal))]
pub fn next_row<S: Slope>(
    slanted: &SlantedInputs<'_>,
    here: CallRow,
    a: &mut [S::Value; ROW_LENGTH],
    b: &mut [S::Value; ROW_LENGTH],
    c: &mut [S::Value; ROW_LENGTH],
    rises: &mut [S; ROW_LENGTH],
    falls: &mut [S; ROW_LENGTH],
    work: &mut [i64],
    out: &mut [i64],
)
    requires { LeavingRequires S.Value.holds slanted.now here (map S.Value.value a.old) (map S.Value.value b.old) (map S.Value.value c.old) (map S.sum rises.old) (map S.sum falls.old) work.old out.old }
    ensures { LeavingDone slanted.now here work.old (map S.Value.value a.new) (map S.Value.value b.new) (map S.Value.value c.new) (map S.sum rises.new) (map S.sum falls.new) work.new out.new }
{
    let h = slanted.height;
    let w = slanted.width;
    let k = w - h;
    let n = slanted.inputs.source.frame.columns + slanted.beside;
    let below = ABOVE + here.row + 1;
    let moved = here.moved + 1;
    load(slanted, below + h, a);
    add_edges(slanted, here, a, c, rises, falls, work, out);
    load(slanted, below, b);
    load(slanted, below - h, c);
    add_seam(slanted, here, rises, falls);
    loops::slide(a, b, c, n, rising_places(moved, w, k), rises);
    loops::slide(
        a,
        b,
        c,
        n,
        falling_places(moved, slanted.beside, w, k),
        falls,
    );
}
