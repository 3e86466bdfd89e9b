// Direct sums and cumulative tables beside the rival's: the tables' entries, readings of built tables, and readings of tables with foreign contents.
use local_statistics::{build, direct_sum, read};
use std::io;
use trial_support::cases::Case;
use trial_support::random::CELLS;
use trial_support::rival::corners::Table;
use trial_support::rival::{Given, unless_too_wide};
use trial_support::tally::Tally;
use trial_support::{cases, random};

// The tallies of this group.
#[derive(Clone, Copy, Default)]
struct Tallies {
    direct: Tally,
    entries: Tally,
    built: Tally,
    foreign: Tally,
}

// The k-th cell.
fn at_cell(given: Given, built: Table, foreign: Table, k: usize, t: Tallies) -> Tallies {
    let c = given.case;
    let cell = c.scattered(k);
    let sum = unless_too_wide(c, given.sum(cell));
    let foreign_sum = unless_too_wide(c, foreign.reading(cell));
    let entry: i64 = random::read(built.entries, c.place(cell));
    Tallies {
        direct: t.direct.with(direct_sum(&given.inputs(), cell), sum),
        entries: t.entries.with(entry, given.entry(cell)),
        built: t
            .built
            .with(read(c.frame(), built.entries, c.window(), cell), sum),
        foreign: t.foreign.with(
            read(c.frame(), foreign.entries, c.window(), cell),
            foreign_sum,
        ),
    }
}

// One case: its pictures made, their table built in an area with foreign contents, and compared at 24 cells at most. The areas are arrays, since the trials
// have no heap.
fn of_case(case: Case, tallies: Tallies) -> Tallies {
    let pictures = case.pictures();
    let given = Given::new(case, &pictures);
    let cells = case.cells().min(CELLS);
    let before: [i64; CELLS] = random::foreign(cells, case.seed);
    let mut area = before;
    let answer = build(&given.inputs().source, &mut area[..cells]);
    let begun = Tallies {
        entries: tallies.entries.with(answer.err(), None),
        ..tallies
    };
    let built = Table {
        case,
        entries: &area[..cells],
    };
    let foreign = Table {
        case,
        entries: &before[..cells],
    };
    (0..cells.min(24)).fold(begun, |t, k| at_cell(given, built, foreign, k, t))
}

pub fn run(rt: &impl Print, columns_wrap: bool) -> io::Result<()> {
    let border = cases::border(columns_wrap);
    let t = (0..72).fold(Tallies::default(), |t, k| {
        of_case(cases::kth(k, columns_wrap), t)
    });
    println!(rt; "direct sums{border}: {}", t.direct)?;
    println!(rt; "table entries{border}: {}", t.entries)?;
    println!(rt; "readings of built tables{border}: {}", t.built)?;
    println!(rt; "readings of foreign tables{border}: {}", t.foreign)
}
