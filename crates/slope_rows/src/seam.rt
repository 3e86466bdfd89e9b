// The slopes that come in where the kept ones end, when they move on.

ghost use Rattle.std.specs.Prelude.{map};
ghost use Rattle.slope_rows.specs.Edges.{SeamRequires, SeamDone};

use crate::kept_slopes::SlantedInputs;
use crate::places::{CallRow, FALLING_START, RISING_START};
use slope_loops::loops::Slope;
use slope_loops::padding::ROW_LENGTH;

// A slope more of each kind: the one after those that rise, and the one before those that fall. Where columns wrap, it is the one of the column a whole row nearer;
// where they clip, it reaches no cell.
#[tactic(auto, unfolding(spec_picture::specs::Frame::frame_legal))]
pub fn add_seam<S: Slope>(
    slanted: &SlantedInputs<'_>,
    here: CallRow,
    rises: &mut [S; ROW_LENGTH],
    falls: &mut [S; ROW_LENGTH],
)
    requires { SeamRequires slanted.now here (map S.sum rises.old) (map S.sum falls.old) }
    ensures { SeamDone slanted.now here (map S.sum rises.new) (map S.sum falls.new) }
{
    let beside = slanted.beside;
    let columns = slanted.inputs.source.frame.columns;
    let nearer = RISING_START + here.moved + beside;
    let before = FALLING_START - here.moved - beside - 1;
    if slanted.inputs.source.frame.columns_wrap {
        rises[nearer + columns] = rises[nearer];
        falls[before] = falls[before + columns];
    } else {
        rises[nearer + columns] = S::zero();
        falls[before] = S::zero();
    }
}
