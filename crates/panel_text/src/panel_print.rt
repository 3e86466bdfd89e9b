// From the numbers of panel's output to bytes: a number, a line of means, all lines, and the line of a refusal. Each writes to the front of the
// area and answers how many bytes it wrote: a writer that held both would be lent by `&mut` to each of them, and say in every contract what it held before.

ghost use Rattle.std.specs.Prelude.{◌*◌, ◌≤◌, ◌∷◌, [], ◌++◌, length};
ghost use Rattle.spec_panel.specs.Text.{printed};
ghost use Rattle.spec_panel.specs.Panel.{lines_of, refused_line};
ghost use Rattle.panel_text.specs.Print.{Written, Fitted, LineRoom, LineWritten, LinesRoom, value_at};

use itoa::Buffer;
use spec_picture::Frame;

// Bytes, copied to the front of the area.
fn put(bytes: &[u8], out: &mut [u8]) -> usize
    requires { length bytes.now ≤ length out.old }
    ensures { Written bytes.now out.old out.new result }
{
    out[..bytes.len()].copy_from_slice(bytes);
    bytes.len()
}

// A number, with a minus sign before it where it is negative.
#[tactic(auto, using(crate::proofs::Bytes::printed_is))]
fn number(v: i16, out: &mut [u8]) -> usize
    requires { 6 ≤ length out.old }
    ensures { Written (printed v) out.old out.new result }
{
    put(Buffer::new().format(v).as_bytes(), out)
}

// A number, and the byte that ends it.
fn field(v: i16, end: u8, out: &mut [u8]) -> usize
    requires { 7 ≤ length out.old }
    ensures { Written (printed v ++ (end ∷ [])) out.old out.new result × (result ≤ 7) }
{
    let len = number(v, out);
    out[len] = end;
    len + 1
}

// "the means in column order, one space between", "each ended by a line feed"
fn line(row: &[i16], out: &mut [u8]) -> usize
    requires { LineRoom row.now out.old }
    ensures { LineWritten row.now out.old out.new result }
{
    let (last, before) = row.split_last().unwrap();
    let mut len = 0;
    for v in before {
        len += field(*v, b' ', &mut out[len..]);
    }
    len + field(*last, b'\n', &mut out[len..])
}

// "one line a row"
pub fn lines(frame: Frame, means: &[i16], out: &mut [u8]) -> usize
    requires { LinesRoom frame means.now out.old }
    ensures { Fitted (lines_of (value_at frame.columns means.now) 0 frame.rows frame.columns) out.old out.new result }
{
    let mut len = 0;
    for i in 0..frame.rows {
        let start = i * frame.columns;
        len += line(&means[start..start + frame.columns], &mut out[len..]);
    }
    len
}

// "the word, a space and the number", and a line feed, of any number.
pub fn refused(number: u32, out: &mut [u8]) -> usize
    requires { 19 ≤ length out.old }
    ensures { Fitted (refused_line number) out.old out.new result }
{
    let mut buffer = Buffer::new();
    let digits = buffer.format(number).as_bytes();
    let mut len = put(b"refused ", out);
    len += put(digits, &mut out[len..]);
    out[len] = b'\n';
    len + 1
}
