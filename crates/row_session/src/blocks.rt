// The window sums of a plane, block after block. A block has 16 rows, since many rows cost less than as many single ones.

ghost use Rattle.spec_picture.specs.Checked.{checked_inputs};
ghost use Rattle.row_session.specs.Blocks.{BlockRequires, Block};

use crate::advance;
use spec_picture::CheckedInputs;
use windows::clip;

// The sums of the rows of the block that begins at row i: 16 rows, or those up to the picture's last. The areas are whole arrays, so that their types tell that any picture's
// rows fit, and no caller has to; the picture's own are at their fronts.
pub fn next_block(
    i: usize,
    inputs: &CheckedInputs<'_>,
    work: &mut [i64; 1024],
    block: &mut [i64; 16384],
)
    requires { BlockRequires (checked_inputs inputs.now) i work.old }
    ensures { Block (checked_inputs inputs.now) i work.new block.new }
{
    let columns = inputs.source.frame.columns;
    let n = clip::high(i, 15, inputs.source.frame.rows) - i;
    advance::next_rows(
        i,
        inputs,
        n,
        &mut work[..columns],
        &mut block[..n * columns],
    );
}
