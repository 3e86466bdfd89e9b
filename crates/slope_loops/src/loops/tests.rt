// Sums that are small enough to be added may be moved on: the first three functions say so of every slope, and the test runs them with the largest of both widths.

ghost use Rattle.std.specs.Prelude.{◌≡◌, ◌*◌, ◌≤◌, ◌+ℤ◌, ◌-ℤ◌, map};
ghost use Rattle.std.specs.Int.Signed.{mag};
ghost use Rattle.slope_loops.specs.Loops.{AtMost, Replaced, gathered, slid, GatherRequires, SlideRequires};

use super::*;
use std::test::Fail;

// `gather` of sums that may be added.
fn gather_added<S: Slope>(
    a: &[S::Value; ROW_LENGTH],
    b: &[S::Value; ROW_LENGTH],
    n: usize,
    places: GatherPlaces,
    sums: &mut [S; ROW_LENGTH],
)
    requires { GatherRequires S.sum_max (map S.Value.value a.now) (map S.Value.value b.now) n places (map S.sum sums.old) × AtMost S.Value.value_max (map S.Value.value a.now) places.enters n × AtMost S.Value.value_max (map S.Value.value b.now) places.leaves n }
    ensures { Replaced (gathered (map S.Value.value a.now) (map S.Value.value b.now) places (map S.sum sums.old)) (map S.sum sums.old) (map S.sum sums.new) places.sums n }
{
    gather(a, b, n, places, sums);
}

// `slide` of sums that may be added.
fn slide_added<S: Slope>(
    a: &[S::Value; ROW_LENGTH],
    b: &[S::Value; ROW_LENGTH],
    c: &[S::Value; ROW_LENGTH],
    n: usize,
    places: SlidePlaces,
    sums: &mut [S; ROW_LENGTH],
)
    requires { SlideRequires S.sum_max (map S.Value.value a.now) (map S.Value.value b.now) (map S.Value.value c.now) n places (map S.sum sums.old) × AtMost S.Value.value_max (map S.Value.value a.now) places.lower_new n × AtMost S.Value.value_max (map S.Value.value b.now) places.lower_gone n × AtMost S.Value.value_max (map S.Value.value b.now) places.upper_new n × AtMost S.Value.value_max (map S.Value.value c.now) places.upper_gone n }
    ensures { Replaced (slid (map S.Value.value a.now) (map S.Value.value b.now) (map S.Value.value c.now) places (map S.sum sums.old)) (map S.sum sums.old) (map S.sum sums.new) places.sums n }
{
    slide(a, b, c, n, places, sums);
}

// A cell enters a sum of twice the size that may be added, and one leaves it.
fn enter_and_leave_doubled<S: Slope>(sum: S, enters: S::Value, leaves: S::Value) -> S
    requires { (mag (S.sum sum) ≤ 2 * S.sum_max) × (mag (S.Value.value enters) ≤ S.Value.value_max) × (mag (S.Value.value leaves) ≤ S.Value.value_max) }
    ensures { S.sum result ≡ S.sum sum +ℤ (S.Value.value enters -ℤ S.Value.value leaves) }
{
    sum.enter_and_leave(enters, leaves)
}

// Three sums of many that are the same, when a cell has entered each and one has left it.
fn gathered_of<S: Slope>(sum: S, enters: S::Value, leaves: S::Value) -> [S; ROW_LENGTH]
    requires { (mag (S.sum sum) ≤ S.sum_max) × (mag (S.Value.value enters) ≤ S.Value.value_max) × (mag (S.Value.value leaves) ≤ S.Value.value_max) }
{
    let places = GatherPlaces {
        sums: 5,
        enters: 0,
        leaves: 9,
    };
    let mut sums = [sum; ROW_LENGTH];
    gather_added(
        &[enters; ROW_LENGTH],
        &[leaves; ROW_LENGTH],
        3,
        places,
        &mut sums,
    );
    sums
}

// The same when two have entered and two have left.
fn slid_of<S: Slope>(sum: S, enters: S::Value, leaves: S::Value) -> [S; ROW_LENGTH]
    requires { (mag (S.sum sum) ≤ S.sum_max) × (mag (S.Value.value enters) ≤ S.Value.value_max) × (mag (S.Value.value leaves) ≤ S.Value.value_max) }
{
    let places = SlidePlaces {
        sums: 5,
        lower_new: 0,
        lower_gone: 9,
        upper_new: 1,
        upper_gone: 7,
    };
    let enter = [enters; ROW_LENGTH];
    let mut sums = [sum; ROW_LENGTH];
    slide_added(&enter, &[leaves; ROW_LENGTH], &enter, 3, places, &mut sums);
    sums
}

// The largest sums that may be added, 2^29 and 2^60 in size, and for `enter_and_leave` twice as much; the largest cells, 2^15 and 2^30.
#[test]
fn moves_sums_that_may_be_added() -> Result<(), Fail> {
    let narrow = gathered_of(-536870912i32, -32768, 32767);
    if narrow[4..9] != [-536870912, -536936447, -536936447, -536936447, -536870912] {
        return Err(Fail::new(format_args!("gathered {:?}", &narrow[4..9])));
    }
    let wide = gathered_of(1152921504606846976i64, 1073741824, -1073741824);
    if wide[4..6] != [1152921504606846976, 1152921506754330624] {
        return Err(Fail::new(format_args!("gathered {:?}", &wide[4..6])));
    }
    let narrow = slid_of(-536870912i32, -32768, 32767);
    if narrow[4..9] != [-536870912, -537001982, -537001982, -537001982, -536870912] {
        return Err(Fail::new(format_args!("slid {:?}", &narrow[4..9])));
    }
    let wide = slid_of(1152921504606846976i64, 1073741824, -1073741824);
    if wide[4..6] != [1152921504606846976, 1152921508901814272] {
        return Err(Fail::new(format_args!("slid {:?}", &wide[4..6])));
    }
    let once = enter_and_leave_doubled(1073741824i32, 32767, -32768);
    if once != 1073807359 {
        return Err(Fail::new(format_args!("entered and left {once}")));
    }
    let once = enter_and_leave_doubled(-2305843009213693952i64, -1073741824, 1073741824);
    if once != -2305843011361177600 {
        return Err(Fail::new(format_args!("entered and left {once}")));
    }
    Ok(())
}
