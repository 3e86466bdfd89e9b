// The C interface: every operation under a plain name, its answer a status, its results behind pointers. C gives its arguments one by one,
// and a shape, a plane and a kind as numbers. `spec_c` says what a call hands back.
//
// In C a slice is a pointer and a length, and a `&mut` a pointer. The caller owes what the prover takes from a reference: no pointer is
// null, not even that of an empty slice; each is aligned, and points to as much memory as its type and its length say; and what the call
// may write overlaps nothing else that it is lent.
//
// The status is 0 where the call was answered; else the number of its refusal, 1 to 9 or 11, or that of an answer with no value. At every status
// but 0 nothing is written: areas, results and position keep their bytes. (A text that panel refuses is answered: the line that says so is
// what panel prints.)
#![tactic(auto)]

mod frames; // frames.rt: how a call gives the frame of a picture
mod results; // results.rt: how an answer becomes a status and a value
pub mod direct; // direct.rt: the direct sum
pub mod tables; // tables.rt: the cumulative table
pub mod rows; // rows.rt: the row session
pub mod moments; // moments.rt: mean, variance and deviation
pub mod voice; // voice.rt: the voice answer
pub mod correlation; // correlation.rt: the coefficient
pub mod smooth; // smooth.rt: smoothing
pub mod steady; // steady.rt: the steady search
pub mod texts; // texts.rt: what panel prints
pub mod version; // version.rt: the version of the library
