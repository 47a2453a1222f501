// Demand 3's claim over whole lists of calls, in specs/, with values for which it holds and does not. The theorem is in crate claim_laws.

#![tactic(auto)]
