// What the program `call` prints of one call (docs/FORMATS.md, "One call"). The lines are defined in specs/, with computed cases and laws of
// their length in proofs/; the code is that of crates answer_superblocks, answer_names, answer_totals, answer_places and answer_text.

#![tactic(auto)]
