// Loops over rows: what enters and leaves a row of sums, and the sliding sum across a row. Which rows those are is known above, where the window is.
#![tactic(auto)]

pub mod entering_loops; // entering_loops.rt: one loop for each kind of value
pub mod enter_and_leave; // enter_and_leave.rt: one row of a plane in and one out
pub mod sliding_sums; // sliding_sums.rt: the sliding sum across a row
