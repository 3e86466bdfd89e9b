// Sizes and windows at their limits and just beyond: the cases of document 01's list that are not starred, and windows that just fit columns that wrap.
use local_statistics::{Cell, Refusal, Shift, direct_sum};
use std::io;
use trial_support::cases;
use trial_support::cases::Case;
use trial_support::rival::Given;
use trial_support::tally::Tally;

// A line of the list: rows, columns, the window's shape and its two numbers, and the refusal, none where the case is to be accepted.
type Line = (usize, usize, u32, usize, usize, Option<Refusal>);

// "256 rows pass, 0 and 257 give 1", and so for columns; "radius 127 passes, 128 gives 3", and so for the numbers of the other
// shapes.
const LINES: [Line; 23] = [
    (1, 1, 1, 1, 1, None),
    (256, 1, 1, 1, 1, None),
    (256, 128, 1, 1, 1, None),
    (0, 1, 1, 1, 1, Some(Refusal::Size)),
    (257, 1, 1, 1, 1, Some(Refusal::Size)),
    (1, 1024, 1, 1, 1, None),
    (32, 1024, 1, 1, 1, None),
    (1, 0, 1, 1, 1, Some(Refusal::Size)),
    (0, 0, 1, 1, 1, Some(Refusal::Size)),
    (1, 1025, 1, 1, 1, Some(Refusal::Size)),
    (256, 128, 2, 127, 0, None),
    (256, 128, 2, 128, 0, Some(Refusal::Window)),
    (256, 128, 2, 127, 1, Some(Refusal::Window)),
    (256, 128, 1, 127, 127, None),
    (256, 128, 1, 128, 127, Some(Refusal::Window)),
    (256, 128, 1, 127, 128, Some(Refusal::Window)),
    (256, 128, 3, 64, 63, None),
    (256, 128, 3, 64, 64, Some(Refusal::Window)),
    (256, 128, 3, 0, 127, None),
    (256, 128, 3, 127, 0, None),
    (256, 128, 3, 128, 0, Some(Refusal::Window)),
    (256, 128, 0, 1, 1, Some(Refusal::Window)),
    (256, 128, 4, 1, 1, Some(Refusal::Window)),
];

// Where columns wrap: "11, widest row above columns", which equality is not, whatever the height; 1 and 3 come before it.
const WRAPPED: [Line; 18] = [
    (1, 1, 1, 1, 0, None),
    (256, 1, 1, 127, 0, None),
    (1, 1, 1, 0, 1, Some(Refusal::Width)),
    (1, 1, 2, 0, 0, None),
    (1, 1, 2, 1, 0, Some(Refusal::Width)),
    (1, 1, 3, 0, 0, None),
    (1, 1, 3, 1, 0, Some(Refusal::Width)),
    (1, 1, 3, 0, 1, Some(Refusal::Width)),
    (100, 255, 1, 127, 127, None),
    (100, 254, 1, 127, 127, Some(Refusal::Width)),
    (100, 254, 1, 127, 126, None),
    (100, 255, 2, 127, 0, None),
    (100, 254, 2, 127, 0, Some(Refusal::Width)),
    (100, 255, 3, 64, 63, None),
    (100, 254, 3, 64, 63, Some(Refusal::Width)),
    (32, 1024, 1, 127, 127, None),
    (1, 1, 1, 0, 128, Some(Refusal::Window)),
    (0, 1, 1, 0, 1, Some(Refusal::Size)),
];

// One direct sum of one picture alone, at the middle cell.
fn tried(line: Line, columns_wrap: bool, t: Tally) -> Tally {
    let (rows, columns, shape, first, second, refusal) = line;
    let case = Case {
        rows,
        columns,
        columns_wrap,
        shape,
        first,
        second,
        shift: Shift { down: 0, right: 0 },
        plane: 1,
        seed: 77,
    };
    let pictures = case.pictures();
    let given = Given::new(case, &pictures);
    let cell = Cell {
        row: rows / 2,
        column: columns / 2,
    };
    let wanted = match refusal {
        Some(refusal) => Err(refusal),
        None => Ok(given.sum(cell)),
    };
    t.with(direct_sum(&given.inputs(), cell), wanted)
}

pub fn run(rt: &impl Print, columns_wrap: bool) -> io::Result<()> {
    let lines = if columns_wrap {
        &WRAPPED[..]
    } else {
        &LINES[..]
    };
    let all = lines
        .iter()
        .fold(Tally::default(), |t, line| tried(*line, columns_wrap, t));
    println!(rt; "limits{}: {all}", cases::border(columns_wrap))
}
