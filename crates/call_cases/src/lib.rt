// Whole calls in computed cases, with all that they leave: they tell the rules from near misses.

#![tactic(auto)]
