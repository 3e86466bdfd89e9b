// From one row to the next: the row that enters a window's sums and the one that leaves. How many rows a call gives is known in `row_session`.
#![tactic(auto)]

pub mod first_rows; // first_rows.rt: the work area on row 0
pub mod slanted; // slanted.rt: a slanted window from row to row
pub mod row_step; // row_step.rt: the work area from row to row
pub mod step; // step.rt: from one row to the next at one half height
