// Smoothing and the steady search beside the rival's.
use local_statistics::{Cell, Shift, smooth, steady};
use std::io;
use trial_support::cases::Case;
use trial_support::random::CELLS;
use trial_support::rival::{Given, moments, too_wide, unless_too_wide};
use trial_support::tally::Tally;
use trial_support::{cases, random};

// The rival's mean at a cell of one picture.
fn mean(given: Given, cell: Cell) -> i64 {
    let n = given.plane_sum(0, cell);
    let s = given.plane_sum(1, cell);
    moments::mean(n, s)
}

// One picture smoothed, "the case g = f with shift (0, 0)", and compared at 64 cells at most; a call that is refused leaves the zeros. The output is an array as long as those of the pictures: the trials
// have no heap.
fn smoothed(case: Case, f: &[i16], t: Tally) -> Tally {
    let c = Case {
        shift: Shift { down: 0, right: 0 },
        ..case
    };
    let given = Given { case: c, f, g: f };
    let cells = c.cells().min(CELLS);
    let mut out = [0i16; CELLS];
    let answer = smooth(c.frame(), f, c.window(), &mut out[..cells]);
    let refusal = too_wide(c);
    let begun = t.with(answer.err(), refusal);
    (0..cells.min(64)).fold(begun, |t, k| {
        let cell = c.scattered(k);
        let ours: i16 = random::read(&out, c.place(cell));
        let wanted = match refusal {
            Some(_) => 0,
            None => mean(given, cell),
        };
        t.with(i64::from(ours), wanted)
    })
}

// Whether the cell is Steady: N is not 0, and Vf is.
fn is_steady(given: Given, cell: Cell) -> bool {
    let n = given.plane_sum(0, cell);
    if n == 0 {
        return false;
    }
    let s = given.plane_sum(1, cell);
    let a = given.plane_sum(3, cell);
    moments::central(n, a, s, s) == 0
}

// The library's search beside the rival's, cells by their places: "the first cell in row order whose voice answer is Steady", and none where no cell is.
fn searched(given: Given, t: Tally) -> Tally {
    let c = given.case;
    let answer = steady(c.frame(), given.f, given.g, c.window(), c.shift);
    let ours = answer.map(|found| found.map(|cell| c.place(cell)));
    let first = (0..c.cells()).find(|k| is_steady(given, c.cell(*k)));
    t.with(ours, unless_too_wide(c, first))
}

// The two tallies of this group.
#[derive(Clone, Copy, Default)]
struct Tallies {
    means: Tally,
    steady: Tally,
}

fn of_case(case: Case, t: Tallies) -> Tallies {
    let pictures = case.pictures();
    let given = Given::new(case, &pictures);
    Tallies {
        means: smoothed(case, given.f, t.means),
        steady: searched(given, t.steady),
    }
}

pub fn run(rt: &impl Print, columns_wrap: bool) -> io::Result<()> {
    let border = cases::border(columns_wrap);
    let t = (0..72).fold(Tallies::default(), |t, k| {
        of_case(cases::kth(k, columns_wrap), t)
    });
    println!(rt; "smoothed cells{border}: {}", t.means)?;
    println!(rt; "steady searches{border}: {}", t.steady)
}
