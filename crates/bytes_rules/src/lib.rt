// Numbers of several bytes, the low byte first, at a position of a list of bytes: definitions and laws. The code is crates bytes_reader and
// bytes_lists.
#![tactic(auto)]

// The largest number of one byte.
pub const LARGEST_BYTE: usize = 255;
