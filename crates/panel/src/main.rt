// The program panel: a picture's text from standard input, its smoothed picture, or the line of a refusal, to standard output. What a
// text means, and what is printed for it, is in `panel_text`.
#![tactic(auto)]

ghost use Rattle.std.specs.Prelude.{◌≡◌, ◌≤◌, ◌<◌, length, take, OnOk, IfOk, IfSome};
ghost use Rattle.std.specs.Io.KnownBytes.{Consumes, IsAtEnd, Appends};
ghost use Rattle.spec_panel.specs.Panel.{panel};

use std::io;
use std::io::{Read, Write};

// Reads until the input ends or `text` is full, and gives how many bytes it put at the front of `text`. A short read, as of a pipe, is gone
// on with. std has no such method: `read_exact` fails where the input ends, and `read_to_end` needs the heap.
fn read_full<R: Read>(from: &mut R, text: &mut [u8]) -> io::Result<usize>
    ensures room { IfOk result (λ n. n ≤ length text.new) }
    ensures bytes { IfOk result (λ n. Consumes (R.remaining from.old) (R.remaining from.new) (take n text.new)) }
    ensures end { IfOk result (λ n. n < length text.new → IsAtEnd (R.remaining from.new)) }
{
    let mut n = 0;
    while n < text.len() {
        let more = from.read(&mut text[n..])?;
        if more == 0 {
            break;
        }
        n += more;
    }
    Ok(n)
}

// Where it is known what a reader has, the writer gets what panel prints of it, also where it is longer than the text that is read.
fn run<R: Read, W: Write>(from: &mut R, to: &mut W) -> io::Result<()>
    ensures { OnOk result (IfSome (R.remaining from.old) (λ text. Appends (W.contents to.old) (W.contents to.new) (panel text))) }
{
    // A buffer for the longest input that is accepted, and for one byte more, which shows that an input is longer.
    let mut text = panel_text::area::<u8, 65537>();
    // A buffer for the longest output.
    let mut out = panel_text::area::<u8, { panel_text::ROOM }>();
    let n = read_full(from, &mut text)?;
    let count = panel_text::render(&text[..n], &mut out);
    to.write_all(&out[..count])
}

// A read or a write that fails ends the program with its error.
fn main(rt: HostRuntime) -> io::Result<()> {
    run(&mut rt.stdin(), &mut rt.stdout())
}
