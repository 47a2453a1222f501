// The move rule, which restores a heap's emptiness invariant: definitions, with computed cases of them. The laws are in crate heap_laws.

#![tactic(auto)]
