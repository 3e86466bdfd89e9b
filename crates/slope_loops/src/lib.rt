// The slopes of a diamond's or hexagon's edges: what they are, as definitions and laws, and the loops over them. The functions that keep them from row to row
// are in `slope_rows`.
#![tactic(auto)]

pub mod padding; // padding.rt: rows of a plane among zeros or wrapped cells
pub mod loops; // loops.rt: the loops
