// What the trials rest on: what they compare and count, the calls that they make, and the rival. Nothing is tried here.
#![tactic(auto)]

pub mod tally; // tally.rt: what a group of trials has compared
pub mod random; // random.rt: numbers that look random, and areas of them
pub mod cases; // cases.rt: what a call is given
pub mod rival; // rival.rt: sums straight from document 01's definitions
