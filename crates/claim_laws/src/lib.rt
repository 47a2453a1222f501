// Demand 3: the claim holds of every list of calls that starts from an accepted setup. The claim is in crate claim_rules.

#![tactic(auto)]
