// A number, levels or products that enter a row of sums, and such as leave it: one loop for numbers and levels, with a closure for each, and one for products.
// For callers that have checked their inputs.

ghost use Rattle.std.specs.Prelude.{◌≡◌, ℕ, ◌<◌, pos, ◌+ℤ◌, ◌-ℤ◌, ◌*ℤ◌, length, get_or};
ghost use Rattle.numbers.specs.Grid.{tabulate};
ghost use Rattle.numbers.specs.Wrap.{wrap};
ghost use Rattle.row_loops.specs.Added.{AddedEach, ProductsRequires};

use arithmetic::{machine, wrapping};

// To every sum is added what `by` gives at its place.
#[tactic(auto, using(crate::proofs::Adding::added_none))]
pub fn add_each<F: Fn(usize) -> i64>(by: F, sums: &mut [i64])
    requires { (k : ℕ) → k < length sums.old → F.pre by k }
    ensures { AddedEach (F.post by) sums.old sums.new }
{
    for place in 0..sums.len() {
        sums[place] = wrapping::wrapping_add(sums[place], by(place));
    }
}

// The number is added to every sum.
pub fn add_number(by: i64, sums: &mut [i64])
    ensures { sums.new ≡ tabulate (length sums.old) (λ k. wrap (get_or sums.old k (pos 0) +ℤ by)) }
{
    add_each(|_| by, sums);
}

// Levels enter, and levels leave.
pub fn levels_enter_and_leave(enter: &[i16], leave: &[i16], sums: &mut [i64])
    requires { (length enter.now ≡ length sums.old) × (length leave.now ≡ length sums.old) }
    ensures { sums.new ≡ tabulate (length sums.old) (λ k. wrap (get_or sums.old k (pos 0) +ℤ (get_or enter.now k (pos 0) -ℤ get_or leave.now k (pos 0)))) }
{
    add_each(|k| machine::difference(enter[k], leave[k]), sums);
}

// Products a·b of levels enter, and products c·d leave. A loop of its own: `add_each` with a closure took 1.15 times as long here. Inlined into the two functions below, of which each
// is one loop and nothing else: where it lay in a longer one, its place there cost up to 1.15 times the time.
#[inline(always)]
fn products(a: &[i16], b: &[i16], c: &[i16], d: &[i16], sums: &mut [i64])
    requires { ProductsRequires a.now b.now c.now d.now sums.old }
    ensures { sums.new ≡ tabulate (length sums.old) (λ k. wrap (get_or sums.old k (pos 0) +ℤ (get_or a.now k (pos 0) *ℤ get_or b.now k (pos 0) -ℤ get_or c.now k (pos 0) *ℤ get_or d.now k (pos 0)))) }
{
    for k in 0..sums.len() {
        let enter = machine::product(a[k], b[k]);
        let leave = machine::product(c[k], d[k]);
        sums[k] = wrapping::wrapping_add(sums[k], wrapping::wrapping_sub(enter, leave));
    }
}

// The same, of products of two planes of levels.
#[inline(never)]
pub fn products_enter_and_leave(a: &[i16], b: &[i16], c: &[i16], d: &[i16], sums: &mut [i64])
    requires { ProductsRequires a.now b.now c.now d.now sums.old }
    ensures { sums.new ≡ tabulate (length sums.old) (λ k. wrap (get_or sums.old k (pos 0) +ℤ (get_or a.now k (pos 0) *ℤ get_or b.now k (pos 0) -ℤ get_or c.now k (pos 0) *ℤ get_or d.now k (pos 0)))) }
{
    products(a, b, c, d, sums);
}

// The same, of squares: two rows are read, and not four.
#[inline(never)]
pub fn squares_enter_and_leave(a: &[i16], c: &[i16], sums: &mut [i64])
    requires { ProductsRequires a.now a.now c.now c.now sums.old }
    ensures { sums.new ≡ tabulate (length sums.old) (λ k. wrap (get_or sums.old k (pos 0) +ℤ (get_or a.now k (pos 0) *ℤ get_or a.now k (pos 0) -ℤ get_or c.now k (pos 0) *ℤ get_or c.now k (pos 0)))) }
{
    products(a, a, c, c, sums);
}
