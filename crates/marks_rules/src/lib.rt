// The live marks of a superblock, as definitions with computed cases. The laws are those of crate marks_laws, the code that of crates
// marks_bitmap and marks_count.
#![tactic(auto)]

// The bits of each of the four numbers that hold the marks.
pub const BITS_OF_WORD: usize = 64;

// How many marks they are.
pub const MARK_COUNT: usize = 256;
