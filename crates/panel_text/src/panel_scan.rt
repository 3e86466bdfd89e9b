// From the bytes of panel's text to numbers: an iterator that passes over the dividers, finds a run, and gives its number.

ghost use Rattle.std.specs.Prelude.{◌≡◌, ◌≤◌, List, Option, ℤ, pos, map, not, IfSome, position, option_map};
ghost use Rattle.std.specs.Iterator.{YieldsFirst, item_count};
ghost use Rattle.spec_panel.specs.Text.{divides, runs, natural, number};

use std::marker::Model;

// "blanks are spaces and tabs, a line end is a line feed"
#[tactic(auto, unfolding(spec_panel::specs::Text::divides))]
fn is_divider(b: u8) -> bool
    ensures { result ≡ divides b }
{
    matches!(b, b' ' | b'\t' | b'\n')
}

// Where the first run begins; None where no byte is of a run.
fn run_start(text: &[u8]) -> Option<usize>
    ensures { result ≡ position (λ b. not (divides b)) text.now }
{
    text.iter().position(|b| !is_divider(*b))
}

// Where the run at the front ends; None where it is the whole text.
fn run_end(text: &[u8]) -> Option<usize>
    ensures { result ≡ position divides text.now }
{
    text.iter().position(|b| is_divider(*b))
}

// "1 to 9 digits". By hand: std's `parse` takes a plus sign before them, and a `&str`, which the bytes of a text need not be.
fn natural(run: &[u8]) -> Option<u32>
    ensures value { result ≡ natural run.now }
    ensures small { IfSome result (λ n. n ≤ 999999999) }
{
    if !(1..=9).contains(&run.len()) {
        return None;
    }
    let mut value = 0;
    for b in run {
        value = 10 * value + (*b as char).to_digit(10)?;
    }
    Some(value)
}

// "A number is an optional minus sign and 1 to 9 digits"
fn number(run: &[u8]) -> Option<i32>
    ensures { result ≡ number run.now }
{
    match run.strip_prefix(b"-") {
        Some(digits) => natural(digits).map(|n| -(n as i32)),
        None => natural(run).map(|n| n as i32),
    }
}

// The numbers of a text from a place on. A run that is malformed gives None.
#[derive(Drop)]
pub struct Numbers<'a> {
    rest: &'a [u8],
}

impl<'a> Model for Numbers<'a> {
    ghost Value = { List (Option ℤ) };

    ghost view = { λ s. map number (runs s.rest.now) };
}

impl<'a> Numbers<'a> {
    // All numbers of a text.
    pub fn new(text: &'a [u8]) -> Self
        ensures { result ≡ map number (runs text.now) }
    {
        Numbers { rest: text }
    }
}

impl<'a> Iterator for Numbers<'a> {
    type Item = Option<i32>;

    ghost next_gives = { YieldsFirst (λ s. s) };

    ghost remaining = { item_count (λ s. s) };

    fn next(&mut self) -> Option<Option<i32>> {
        let start = run_start(self.rest)?;
        let (_, text) = self.rest.split_at(start);
        let (run, rest) = text.split_at(run_end(text).unwrap_or(text.len()));
        self.rest = rest;
        Some(number(run))
    }
}
