// The choice of one superblock among those that meet a criterion: definitions, with computed cases of them. The laws are in crate heap_laws.

#![tactic(auto)]
