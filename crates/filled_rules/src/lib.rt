// The filled order places of one superblock: definitions and laws. The code is crate check_filled.

#![tactic(auto)]
