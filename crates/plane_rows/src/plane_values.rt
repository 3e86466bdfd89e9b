// Levels, and products of levels, as numbers of 64 bits, and a row filled with one number: one simple loop each.
// For callers that have checked their inputs.

ghost use Rattle.std.specs.Prelude.{◌≡◌, pos, ◌*ℤ◌, length, get_or};
ghost use Rattle.numbers.specs.Grid.{tabulate};

use arithmetic::machine;

// Every number of out is the value.
#[tactic(auto, using(crate::proofs::Filled::filled))]
pub fn fill(out: &mut [i64], value: i64)
    ensures { out.new ≡ tabulate (length out.old) (λ k. value) }
{
    out.fill(value);
}

// Levels as numbers of 64 bits.
#[tactic(auto, using(numbers::proofs::Writes::upto_all))]
pub fn widen(levels: &[i16], out: &mut [i64])
    requires { length levels.now ≡ length out.old }
    ensures { out.new ≡ tabulate (length out.old) (λ k. get_or levels.now k (pos 0)) }
{
    for k in 0..out.len() {
        out[k] = i64::from(levels[k]);
    }
}

// Products of levels. A loop of its own: one loop for both kinds, with a closure as in `row_loops::entering_loops::add_each`, is no plainer, since it takes a record of
// what was written, lemmas of that record and an answer for each closure.
pub fn multiply(a: &[i16], b: &[i16], out: &mut [i64])
    requires { (length a.now ≡ length out.old) × (length b.now ≡ length out.old) }
    ensures { out.new ≡ tabulate (length out.old) (λ k. get_or a.now k (pos 0) *ℤ get_or b.now k (pos 0)) }
{
    for k in 0..out.len() {
        out[k] = machine::product(a[k], b[k]);
    }
}
