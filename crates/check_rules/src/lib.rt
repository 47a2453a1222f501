// The check of a state handed in: definitions, with computed cases of them. The laws are in crate heap_laws.

#![tactic(auto)]
