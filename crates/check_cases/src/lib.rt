// The whole check of a state in computed cases, each of which fails one clause.

#![tactic(auto)]
