// The key's printed lines, as definitions with computed cases, and how long they can be.

#![tactic(auto)]
