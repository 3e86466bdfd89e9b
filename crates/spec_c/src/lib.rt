// The C interface: what its calls take and hand back. Every operation has a plain name, its answer is a status, and its results are behind
// pointers. Definitions and laws; the calls are in `c_interface`.
#![tactic(auto)]
