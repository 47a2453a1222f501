// Laws of the key of a record: demand 3 of its calls, the room it needs, its stop lines, the whole case. The definitions are those of crate key_rules.

#![tactic(auto)]
