// The C interface to smoothing a picture.

ghost use Rattle.std.specs.Prelude.{◌≡◌};
ghost use Rattle.spec_picture.specs.Window.{window};
ghost use Rattle.spec_smoothing.specs.Smoothing.{smooth_checks, smooth_call};
ghost use Rattle.spec_c.specs.Frame.{frame_from};
ghost use Rattle.spec_c.specs.CResult.{with_value, status, c_result};
ghost use Rattle.agreement.specs.Numbers.{NumberedBy};

use crate::frames;
use crate::results::done;
use local_statistics::{Window, smooth};

// `smoothing::smooth`: the mean over the window at every cell.
#[unsafe(no_mangle)]
pub extern "C" fn ls_smooth(
    rows: usize,
    columns: usize,
    columns_wrap: u32,
    f: &[i16],
    shape: u32,
    first: i32,
    second: i32,
    out: &mut [i16],
) -> i32
    ensures status { result ≡ status (c_result with_value (smooth_call (frame_from rows columns columns_wrap) f.now (window shape first second) out.old).answer) }
    ensures area { out.new ≡ (smooth_call (frame_from rows columns columns_wrap) f.now (window shape first second) out.old).area }
    ensures number { NumberedBy (smooth_checks (frame_from rows columns columns_wrap) f.now (window shape first second) out.old) result }
{
    let frame = frames::frame_from(rows, columns, columns_wrap);
    let window = Window {
        shape,
        first,
        second,
    };
    done(smooth(frame, f, window, out))
}
