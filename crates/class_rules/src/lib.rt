// The size classes, as definitions with computed cases and laws. The code of their table is that of crate class_table, of the class of a size class_of_size.
#![tactic(auto)]

// How many classes there are: 0 to 26.
pub const CLASSES: u8 = 27;

// The same as a length.
pub const CLASS_COUNT: usize = CLASSES as usize;

// The bytes of a superblock.
pub const SUPERBLOCK_BYTES: u32 = 4096;

// The largest size that a class holds.
pub const LARGEST_CLASS_SIZE: u16 = 2048;

// The most superblocks that a long block's run has.
pub const LONGEST_RUN: u8 = 16;
