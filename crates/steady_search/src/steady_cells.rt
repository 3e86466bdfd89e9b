// The first steady cell of some rows, from N, S and A of their cells.
// For callers that have checked their inputs.
#![tactic(auto)]

ghost use Rattle.std.specs.Prelude.{◌≡◌, false};
ghost use Rattle.spec_picture.specs.Answers.{option_of};
ghost use Rattle.spec_smoothing.specs.Steady.{find_cell};
ghost use Rattle.spec_statistics.specs.SixSums.{impossible};
ghost use Rattle.spec_statistics.specs.Voice.{voice};
ghost use Rattle.spec_statistics.specs.Answers.{voice_of};
ghost use Rattle.steady_search.specs.SteadyCells.{first_sums, steady_in, CellsRequires};

use spec_picture::Cell;
use spec_statistics::{Sums, Voice};
use statistics::voices;

// The voice answer to the sums of a cell, which are never refused. Those of g have no part in it, and are 0.
fn voice_of_sums(n: i64, s: i64, a: i64) -> Voice
    requires { impossible (first_sums n s a) ≡ false }
    ensures { voice_of result ≡ voice (first_sums n s a) }
{
    let sums = Sums {
        n,
        s,
        t: 0,
        a,
        b: 0,
        p: 0,
    };
    voices::voice_answer(sums).unwrap()
}

// "the search leaves both rows and columns at the first hit": the first steady cell of rows whose sums are in n, s and a, in row order. The label is what document 01's
// forms name for this. Three areas, and none of records, since each is lent to the steps of a plane of its own.
pub fn first_steady_cell(
    rows: usize,
    columns: usize,
    n: &[i64],
    s: &[i64],
    a: &[i64],
) -> Option<Cell>
    requires { CellsRequires rows columns n.now s.now a.now }
    ensures { option_of result ≡ find_cell (steady_in columns n.now s.now a.now) columns 0 rows }
{
    let mut found = None;
    'search: for i in 0..rows {
        for j in 0..columns {
            let k = i * columns + j;
            let Voice::Steady(_) = voice_of_sums(n[k], s[k], a[k]) else {
                continue;
            };
            found = Some(Cell { row: i, column: j });
            break 'search;
        }
    }
    found
}
