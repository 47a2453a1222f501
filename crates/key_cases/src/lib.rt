// Keys of whole records with several calls, in computed cases.

#![tactic(auto)]
