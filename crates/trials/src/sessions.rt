// Row sessions beside the rival's: lists of calls from a fresh session, and from foreign positions and work areas; some of the calls are to be refused.
use local_statistics::{Cell, Refusal, rows_plain};
use std::io;
use trial_support::cases::Case;
use trial_support::rival::{Given, near, too_wide, total};
use trial_support::tally::Tally;
use trial_support::{cases, random};

// How many numbers an area has: 5 rows of 1,024, and one number after them.
const ROOM: usize = 5121;

// What a list of calls has come to: its position, and both areas. Arrays, since the trials have no heap.
#[derive(Clone, Copy)]
struct Progress {
    position: usize,
    work: [i64; ROOM],
    out: [i64; ROOM],
}

// The number of the work area at a cell's column after its row. A call on a foreign work area adds to each of its numbers what the steps add to the definition's, so it
// is found without the steps: as the definition's there, less the definition's at the row before the call.
fn work(given: Given, before: &Progress, fresh: bool, cell: Cell) -> i64 {
    let defined = given.work(cell);
    match before.position.checked_sub(1) {
        Some(row) if !fresh => {
            let from = given.work(Cell { row, ..cell });
            random::read(&before.work, cell.column).wrapping_add(defined.wrapping_sub(from))
        }
        _ => defined,
    }
}

// The output number at a cell: of a fresh session the direct sum; "the wrapped sum of the new work area over columns j-b to j+b inside the picture", or round the edge where
// columns wrap; "for the others .. the new work area".
fn output(given: Given, before: &Progress, fresh: bool, on: Cell) -> i64 {
    let c = given.case;
    match (fresh, c.shape) {
        (true, _) => given.sum(on),
        (false, 1) => total(c.columns, |column| {
            if near(c, on.column, column, c.second) {
                work(given, before, fresh, Cell { column, ..on })
            } else {
                0
            }
        }),
        _ => work(given, before, fresh, on),
    }
}

// Where the rival leaves the list after a call that grants so many rows.
fn granted(given: Given, fresh: bool, request: usize, before: &Progress) -> Progress {
    let c = given.case;
    let end = before.position.saturating_add(request);
    let mut after = Progress {
        position: end,
        ..*before
    };
    if request == 0 {
        return after;
    }
    let row = end.saturating_sub(1);
    for (column, number) in after.work.iter_mut().enumerate().take(c.columns) {
        *number = work(given, before, fresh, Cell { row, column });
    }
    let cells = request.saturating_mul(c.columns);
    for (k, number) in after.out.iter_mut().enumerate().take(cells) {
        let cell = c.cell(k);
        let row = before.position.saturating_add(cell.row);
        *number = output(given, before, fresh, Cell { row, ..cell });
    }
    after
}

// The refusal of a call, none where it is to be granted.
fn refused(c: Case, position: usize, request: usize, lent: usize) -> Option<Refusal> {
    let refusal = too_wide(c);
    if refusal.is_some() {
        return refusal;
    }
    match c.rows.checked_sub(position) {
        Some(left) if request <= left => {
            let fits = lent == request.saturating_mul(c.columns);
            (!fits).then_some(Refusal::Area)
        }
        _ => Some(Refusal::Position),
    }
}

// One call, where columns wrap now and then for all rows that are left, in seven of eight with an output area of the length that it wants: its answer, the position, and both areas with a number after them.
fn call(given: Given, fresh: bool, n: u64, before: Progress, t: Tally) -> (Progress, Tally) {
    let c = given.case;
    let left = c.rows.saturating_sub(before.position);
    let request = if c.columns_wrap {
        [1usize, 4, 0, 2, left, 300][(n / 64 % 6) as usize]
    } else {
        [1usize, 2, 3, 0, 5, 300][(n / 64 % 6) as usize]
    };
    let wrong = usize::from(n / 4096 % 8 == 0);
    let lent = request
        .saturating_mul(c.columns)
        .saturating_add(wrong)
        .min(ROOM);
    let mut after = before;
    let answer = rows_plain(
        &given.inputs(),
        &mut after.position,
        request,
        &mut after.work[..c.columns.min(ROOM)],
        &mut after.out[..lent],
    );
    let (wanted, rows) = match refused(c, before.position, request, lent) {
        Some(refusal) => (before, Err(refusal)),
        None => (granted(given, fresh, request, &before), Ok(request)),
    };
    let compared = t
        .with(answer, rows)
        .with(after.position, wanted.position)
        .with_first(c.columns.saturating_add(1), &after.work, &wanted.work)
        .with_first(lent.saturating_add(1), &after.out, &wanted.out);
    (after, compared)
}

// A list of nine calls on areas with foreign contents, begun fresh at position 0, or at any.
fn session(case: Case, fresh: bool, tally: Tally) -> Tally {
    let pictures = case.pictures();
    let given = Given::new(case, &pictures);
    let foreign = (case.seed / 16 % 32) as usize;
    let area = random::foreign(ROOM, case.seed);
    let mut progress = Progress {
        position: if fresh { 0 } else { foreign },
        work: area,
        out: area,
    };
    let mut t = tally;
    for k in 0..9usize {
        let n = random::at(case.seed, k);
        let (after, compared) = call(given, fresh, n, progress, t);
        progress = after;
        t = compared;
    }
    t
}

fn lists(fresh: bool, columns_wrap: bool) -> Tally {
    (0..72).fold(Tally::default(), |t, k| {
        session(cases::kth(k, columns_wrap), fresh, t)
    })
}

pub fn run(rt: &impl Print, columns_wrap: bool) -> io::Result<()> {
    let border = cases::border(columns_wrap);
    println!(rt;
        "rows of fresh sessions{border}: {}",
        lists(true, columns_wrap)
    )?;
    println!(rt;
        "rows of foreign sessions{border}: {}",
        lists(false, columns_wrap)
    )
}
