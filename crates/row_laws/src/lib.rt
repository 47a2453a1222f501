// Laws of the calls on a lent row, and demand 3 of it. The definitions are those of crate row_rules.

#![tactic(auto)]
