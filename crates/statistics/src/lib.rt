// What six sums say: mean, variance and deviation, the voice answer, the coefficient; and whether six sums are possible. Where the sums come
// from is no matter here.
#![tactic(auto)]

pub mod bounds; // bounds.rt: the bounds of refusal 9
pub mod central; // central.rt: refusal 9, and Vf, Vg and C
pub mod rounding; // rounding.rt: nearest quotients and whole roots
pub mod moments; // moments.rt: mean, variance and deviation
pub mod voices; // voices.rt: the voice answer
pub mod correlation; // correlation.rt: the coefficient
