// What smoothing and the search for the first steady cell are. Definitions and laws; the functions are in `smoothing` and `steady_search`.
#![tactic(auto)]
