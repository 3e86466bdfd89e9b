// Loops over the slopes of the planes, of either width: they move the slopes on, and add them to the work row.
// For callers that have checked their inputs.

ghost use Rattle.std.specs.Prelude.{◌≡◌, ℕ, ◌+◌, ◌-◌, ◌*◌, ◌^◌, ◌<◌, ◌≤◌, ℤ, pos, ◌+ℤ◌, ◌-ℤ◌, length, map};
ghost use Rattle.std.specs.Int.Signed.{mag};
ghost use Rattle.std.specs.Mem.{type_size};
ghost use Rattle.std.proofs.Common.{arith};
ghost use Rattle.numbers.specs.Grid.{tabulate};
ghost use Rattle.slope_loops.specs.Loops.{AtMost, Replaced, gathered, slid, slopes_added, tips_added, GatherRequires, SlideRequires, FinishRequires, TipsRequires};
ghost use Rattle.slope_loops.specs.declared.padding.TheConstants.{ROW_LENGTH};

#[cfg(test)]
mod tests; // loops/tests.rt: the loops at their limits

use crate::padding::{MARGIN, PlaneValue, ROW_LENGTH};
use arithmetic::wrapping;

// A slope's sum, over rows of values.
pub trait Slope: Copy {
    // a number of a row
    type Value: PlaneValue;

    // the sum that one stands for
    ghost sum: { Self → ℤ };

    // how large a slope's sum is where two are added
    ghost sum_max: { ℕ };

    // how large it is where `gather` and `slide` move it on
    ghost moved_max: { ℕ };

    // how large it is where a cell enters and one leaves
    ghost before_max: { ℕ };

    // 0
    fn zero() -> Self
        ensures { sum result ≡ pos 0 };

    // self + enters - leaves
    fn enter_and_leave(self, enters: Self::Value, leaves: Self::Value) -> Self
        requires { (mag (sum self) ≤ before_max) × (mag (Self.Value.value enters) ≤ Self.Value.value_max) × (mag (Self.Value.value leaves) ≤ Self.Value.value_max) }
        ensures { sum result ≡ sum self +ℤ (Self.Value.value enters -ℤ Self.Value.value leaves) };

    // self
    fn to_i64(self) -> i64
        ensures { result ≡ sum self };

    // self + other
    fn with(self, other: Self) -> i64
        requires { (mag (sum self) ≤ sum_max) × (mag (sum other) ≤ sum_max) }
        ensures { result ≡ sum self +ℤ sum other };

    // enters - leaves + self + other
    fn with_tips(self, other: Self, enters: Self::Value, leaves: Self::Value) -> i64
        requires { (mag (sum self) ≤ sum_max) × (mag (sum other) ≤ sum_max) × (mag (Self.Value.value enters) ≤ Self.Value.value_max) × (mag (Self.Value.value leaves) ≤ Self.Value.value_max) }
        ensures { result ≡ (Self.Value.value enters -ℤ Self.Value.value leaves) +ℤ (sum self +ℤ sum other) };

    // a slope has at most 127 cells that enter and as many that leave
    ghost room: { 127 * (2 * Self.Value.value_max) + 4 ≤ sum_max };

    // so they are in what the loops take
    ghost room_moved: { 127 * (2 * Self.Value.value_max) + 4 ≤ moved_max };

    // `slide` has a second cell enter and leave
    ghost room_before: { moved_max + 2 * Self.Value.value_max + 4 ≤ before_max };

    // a sum that is small enough to be added may be moved on
    ghost added_moved: { sum_max ≤ moved_max };

    // and one of twice its size may have a cell enter and one leave
    ghost twice_before: { 2 * sum_max ≤ before_max };

    // the slopes fit in memory
    ghost slopes_fit: { ROW_LENGTH * type_size Self.row < 2 ^ 63 };
}

// planes 0, 1 and 2, whose values are ones and levels; widened by `as`, which the check sees through, where `from` takes an answer for each function
impl Slope for i32 {
    type Value = i16;

    ghost sum = { λ x. x };

    ghost sum_max = { 2 ^ 29 };

    ghost moved_max = { 2 ^ 30 };

    ghost before_max = { 2 ^ 31 - 2 ^ 17 - 1 };

    ghost room = { omega arith };

    ghost room_moved = { omega arith };

    ghost room_before = { omega arith };

    ghost added_moved = { omega arith };

    ghost twice_before = { omega arith };

    ghost slopes_fit = { omega arith };

    fn zero() -> i32 {
        0
    }

    fn enter_and_leave(self, enters: i16, leaves: i16) -> i32 {
        self + (enters as i32 - leaves as i32)
    }

    fn to_i64(self) -> i64 {
        self as i64
    }

    fn with(self, other: i32) -> i64 {
        (self + other) as i64
    }

    fn with_tips(self, other: i32, enters: i16, leaves: i16) -> i64 {
        ((enters as i32 - leaves as i32) + (self + other)) as i64
    }
}

// planes 3, 4 and 5, whose values are products of levels
impl Slope for i64 {
    type Value = i64;

    ghost sum = { λ x. x };

    ghost sum_max = { 2 ^ 60 };

    ghost moved_max = { 2 ^ 60 };

    ghost before_max = { 2 ^ 61 };

    ghost room = { omega arith };

    ghost room_moved = { omega arith };

    ghost room_before = { omega arith };

    ghost added_moved = { omega arith };

    ghost twice_before = { omega arith };

    ghost slopes_fit = { omega arith };

    fn zero() -> i64 {
        0
    }

    fn enter_and_leave(self, enters: i64, leaves: i64) -> i64 {
        self + (enters - leaves)
    }

    fn to_i64(self) -> i64 {
        self
    }

    fn with(self, other: i64) -> i64 {
        self + other
    }

    fn with_tips(self, other: i64, enters: i64, leaves: i64) -> i64 {
        (enters - leaves) + (self + other)
    }
}

// What is required of values and sums is how large they are, by constants of the traits, which no type of theirs can say.
// The loops take arrays and the places where they begin, and no slices: an array's length is known, so its bounds are, and a slope's place shifts from row to row.
// `slide` is not `gather` twice, nor `finish_tips` `finish` with a pass for the tips: each goes once over the slopes, and that second pass costs time (256 rows over
// a diamond of 2 take 0.74 times as long without it).

// Where `gather` begins: at which of the sums, and at which cells: those in a enter, those in b leave.
#[derive(Clone, Copy)]
pub struct GatherPlaces {
    pub sums: usize,
    pub enters: usize,
    pub leaves: usize,
}

// Where `slide` begins: at which of the sums, and at which cells: of the lower edge the new ones, in a, and those that are gone from it, in b; of the upper edge the
// new ones, in b, and those that are gone from it, in c.
#[derive(Clone, Copy)]
pub struct SlidePlaces {
    pub sums: usize,
    pub lower_new: usize,
    pub lower_gone: usize,
    pub upper_new: usize,
    pub upper_gone: usize,
}

// A further cell of each edge for n sums: the one that enters is added, the one that leaves subtracted.
#[tactic(auto, using(crate::proofs::LoopLaws::replaced_none))]
pub fn gather<S: Slope>(
    a: &[S::Value; ROW_LENGTH],
    b: &[S::Value; ROW_LENGTH],
    n: usize,
    places: GatherPlaces,
    sums: &mut [S; ROW_LENGTH],
)
    requires { GatherRequires S.moved_max (map S.Value.value a.now) (map S.Value.value b.now) n places (map S.sum sums.old) × AtMost S.Value.value_max (map S.Value.value a.now) places.enters n × AtMost S.Value.value_max (map S.Value.value b.now) places.leaves n }
    ensures { Replaced (gathered (map S.Value.value a.now) (map S.Value.value b.now) places (map S.sum sums.old)) (map S.sum sums.old) (map S.sum sums.new) places.sums n }
{
    for x in 0..n {
        let enters = a[x + places.enters];
        let leaves = b[x + places.leaves];
        sums[x + places.sums] = sums[x + places.sums].enter_and_leave(enters, leaves);
    }
}

// n sums from a row to the next: each edge has a new cell at one end, and one is gone at the other. The lower edge's cells are added, the upper edge's subtracted.
#[tactic(auto, using(crate::proofs::LoopLaws::replaced_none))]
pub fn slide<S: Slope>(
    a: &[S::Value; ROW_LENGTH],
    b: &[S::Value; ROW_LENGTH],
    c: &[S::Value; ROW_LENGTH],
    n: usize,
    places: SlidePlaces,
    sums: &mut [S; ROW_LENGTH],
)
    requires { SlideRequires S.moved_max (map S.Value.value a.now) (map S.Value.value b.now) (map S.Value.value c.now) n places (map S.sum sums.old) × AtMost S.Value.value_max (map S.Value.value a.now) places.lower_new n × AtMost S.Value.value_max (map S.Value.value b.now) places.lower_gone n × AtMost S.Value.value_max (map S.Value.value b.now) places.upper_new n × AtMost S.Value.value_max (map S.Value.value c.now) places.upper_gone n }
    ensures { Replaced (slid (map S.Value.value a.now) (map S.Value.value b.now) (map S.Value.value c.now) places (map S.sum sums.old)) (map S.sum sums.old) (map S.sum sums.new) places.sums n }
{
    for x in 0..n {
        sums[x + places.sums] = sums[x + places.sums]
            .enter_and_leave(a[x + places.lower_new], b[x + places.lower_gone])
            .enter_and_leave(c[x + places.upper_gone], b[x + places.upper_new]);
    }
}

// The slopes are added to the work row, and out is a copy of it.
pub fn finish<S: Slope>(
    rising: &[S; ROW_LENGTH],
    falling: &[S; ROW_LENGTH],
    p: usize,
    q: usize,
    work: &mut [i64],
    out: &mut [i64],
)
    requires { FinishRequires S.sum_max (map S.sum rising.now) (map S.sum falling.now) p q work.old out.old }
    ensures { (work.new ≡ tabulate (length work.old) (slopes_added (map S.sum rising.now) (map S.sum falling.now) p q work.old)) × (out.new ≡ tabulate (length work.old) (slopes_added (map S.sum rising.now) (map S.sum falling.now) p q work.old)) }
{
    for j in 0..work.len() {
        let sum = wrapping::wrapping_add(work[j], rising[j + p].with(falling[j + q]));
        work[j] = sum;
        out[j] = sum;
    }
}

// The same of edges that end in a tip: with the slopes a value of a is added, and one of c subtracted.
pub fn finish_tips<S: Slope>(
    a: &[S::Value; ROW_LENGTH],
    c: &[S::Value; ROW_LENGTH],
    rising: &[S; ROW_LENGTH],
    falling: &[S; ROW_LENGTH],
    p: usize,
    q: usize,
    work: &mut [i64],
    out: &mut [i64],
)
    requires { TipsRequires S.sum_max (map S.Value.value a.now) (map S.Value.value c.now) (map S.sum rising.now) (map S.sum falling.now) p q work.old out.old × AtMost S.Value.value_max (map S.Value.value a.now) MARGIN (length work.old) × AtMost S.Value.value_max (map S.Value.value c.now) MARGIN (length work.old) }
    ensures { (work.new ≡ tabulate (length work.old) (tips_added (map S.Value.value a.now) (map S.Value.value c.now) (map S.sum rising.now) (map S.sum falling.now) p q work.old)) × (out.new ≡ tabulate (length work.old) (tips_added (map S.Value.value a.now) (map S.Value.value c.now) (map S.sum rising.now) (map S.sum falling.now) p q work.old)) }
{
    for j in 0..work.len() {
        let change = rising[j + p].with_tips(falling[j + q], a[j + MARGIN], c[j + MARGIN]);
        let sum = wrapping::wrapping_add(work[j], change);
        work[j] = sum;
        out[j] = sum;
    }
}
