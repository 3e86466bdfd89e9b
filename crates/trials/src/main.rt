// Runs the library's operations beside a simple rival and prints, for each group of trials, how many things it compared, how many
// of them differed, and a checksum of what the library gave. Each operation is tried with every shape and plane, on built and foreign contents, with columns that clip and with columns
// that wrap; calls that are refused for other reasons than the limits and too wide a window are compared by the tests from C and Rust, and so is panel's text.
#![tactic(auto)]

mod limits; // limits.rt: sizes and windows at their limits
mod sums; // sums.rt: direct sums and tables
mod sessions; // sessions.rt: row sessions
mod six_sums; // six_sums.rt: mean, variance, deviation, voice and coefficient
mod smoothed; // smoothed.rt: smoothing and the steady search

use std::io;

// All groups with one border.
fn of_border(rt: &impl Print, columns_wrap: bool) -> io::Result<()> {
    limits::run(rt, columns_wrap)?;
    sums::run(rt, columns_wrap)?;
    sessions::run(rt, columns_wrap)?;
    six_sums::run(rt, columns_wrap)?;
    smoothed::run(rt, columns_wrap)
}

fn main(rt: HostRuntime) -> io::Result<()> {
    of_border(&rt, false)?;
    of_border(&rt, true)
}
