// From the numbers of panel's text to what it asks for: the frame, the window, the levels.

ghost use Rattle.std.specs.Prelude.{◌≡◌, ◌≤◌, length};
ghost use Rattle.spec_panel.specs.Panel.{count_of, panel_frame, parsed};
ghost use Rattle.panel_text.specs.Read.{NumberIs, FrameIs, WindowIs, parse_outcome};

use crate::panel_levels::read_levels;
use crate::panel_scan::Numbers;
use checks::legal_frames;
use spec_picture::{Frame, Refusal, Window};

// A number that counts, 0 if it is negative.
fn count(n: i32) -> u32
    ensures { result ≡ count_of n }
{
    u32::try_from(n).unwrap_or(0)
}

// "either beyond limits or more than 4,096 cells"
fn frame_legal(frame: Frame) -> bool
    ensures { result ≡ panel_frame frame }
{
    legal_frames::frame_legal(frame) && frame.rows * frame.columns <= 4096
}

// The next number: "malformed or missing, 10".
fn read_number(numbers: &mut Numbers) -> Result<i32, Refusal>
    ensures { NumberIs numbers.old result numbers.new }
{
    numbers.next().flatten().ok_or(Refusal::Text)
}

// "rows or columns malformed or missing, 10; either beyond limits or more than 4,096 cells, 1"
fn read_frame(numbers: &mut Numbers) -> Result<Frame, Refusal>
    ensures { FrameIs numbers.old result numbers.new }
{
    let rows = count(read_number(numbers)?) as usize;
    let columns = count(read_number(numbers)?) as usize;
    // "*panel* never wraps".
    let frame = Frame {
        rows,
        columns,
        columns_wrap: false,
    };
    if !frame_legal(frame) {
        return Err(Refusal::Size);
    }
    Ok(frame)
}

// The shape and the two window numbers.
fn read_window(numbers: &mut Numbers) -> Result<Window, Refusal>
    ensures { WindowIs numbers.old result numbers.new }
{
    let shape = count(read_number(numbers)?);
    let first = read_number(numbers)?;
    let second = read_number(numbers)?;
    Ok(Window {
        shape,
        first,
        second,
    })
}

// The frame and the window of the picture that the text asks for; its levels are the first of the area, and the frame says how many. As given and in no checked type, since
// `smoothing::smooth`, for which they are read, checks what any caller gives.
pub fn parse(text: &[u8], levels: &mut [i16]) -> Result<(Frame, Window), Refusal>
    requires { 4096 ≤ length levels.old }
    ensures { parsed text.now ≡ parse_outcome result levels.new }
{
    if text.len() > 65536 {
        return Err(Refusal::Text);
    }
    let mut numbers = Numbers::new(text);
    let frame = read_frame(&mut numbers)?;
    let window = read_window(&mut numbers)?;
    read_levels(&mut numbers, &mut levels[..frame.rows * frame.columns]).ok_or(Refusal::Text)?;
    checks::check_window(window)?;
    Ok((frame, window))
}
