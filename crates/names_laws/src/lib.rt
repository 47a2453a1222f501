// The laws of names, for crates that go by them; their definitions are those of crate names_rules.

#![tactic(auto)]
