// Laws of the commands of a record, in the page's words. The definitions are those of crate record_rules.

#![tactic(auto)]
