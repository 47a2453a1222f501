// The cases marked in document 01, as one theorem over one list.

#![tactic(auto)]
