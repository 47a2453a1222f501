// The printed key of a record, as definitions with computed cases. The rules are in specs/.

#![tactic(auto)]
