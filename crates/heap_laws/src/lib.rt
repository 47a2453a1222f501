// Laws of the rules on a state, in the page's words. The definitions are those of crates heap_rules, choice_rules, move_rules and check_rules.

#![tactic(auto)]
