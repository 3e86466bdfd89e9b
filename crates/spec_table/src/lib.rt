// What the cumulative table is: what building fills an area with, and what reading gives of any table. Definitions and laws; the functions
// are in `table`.
#![tactic(auto)]
