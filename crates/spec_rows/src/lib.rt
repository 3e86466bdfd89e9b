// The row session: what it means. Definitions and laws; the functions are in `row_session`.
#![tactic(auto)]
