// Laws of setup, take, free and drop, in the page's words. The definitions are those of crate call_rules.

#![tactic(auto)]
