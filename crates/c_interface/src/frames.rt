// How C gives the frame of a picture. Every call that has a size begins with this.

ghost use Rattle.std.specs.Prelude.{◌≡◌};
ghost use Rattle.spec_c.specs.Frame.{frame_from as c_frame};

use spec_picture::Frame;

// The frame of these sizes, whose columns clip where the number is 0, and wrap where it is any other.
pub fn frame_from(rows: usize, columns: usize, columns_wrap: u32) -> Frame
    ensures { result ≡ c_frame rows columns columns_wrap }
{
    Frame {
        rows,
        columns,
        columns_wrap: columns_wrap != 0,
    }
}
