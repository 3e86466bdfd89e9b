// What the text of the program panel means. Definitions and laws; the functions are in `panel_text`.
#![tactic(auto)]
