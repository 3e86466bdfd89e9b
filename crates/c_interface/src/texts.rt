// The C interface to what panel prints.
#![tactic(auto, unfolding(spec_c::specs::CResult::status, spec_c::specs::CResult::result_or, crate::specs::PanelResult::panel_result, panel_text::specs::Rendered::rendered))]

ghost use Rattle.std.specs.Prelude.{◌≡◌};
ghost use Rattle.panel_text.specs.Rendered.{rendered};
ghost use Rattle.c_interface.specs.PanelResult.{panel_result};
ghost use Rattle.spec_c.specs.Leaves.{CallLeaves};

use crate::results::refused;
use local_statistics::{ROOM, Refusal, render};

// `panel_text::render`: what the program panel prints for a text, a refused text's line included. An area of fewer than 28,672 bytes,
// which hold the longest output, is refused by 8.
#[unsafe(no_mangle)]
pub extern "C" fn ls_panel(text: &[u8], out: &mut [u8], written: &mut usize) -> i32
    ensures answer { CallLeaves (panel_result text.now out.old) written.old result written.new }
    ensures area { out.new ≡ (rendered text.now out.old).area }
{
    if out.len() < ROOM {
        return refused(Refusal::Area);
    }
    *written = render(text, out);
    0
}
