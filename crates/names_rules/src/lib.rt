// The names of blocks, as definitions with computed cases. The laws are those of crate names_laws, the code that of crate names_table.
#![tactic(auto)]

// How many names there are: 0 to 1023.
pub const NAME_COUNT: usize = 1024;

// What stands for a name that is not held.
pub const NOT_HELD: u16 = 65535;

// How many block numbers each superblock has.
pub const NUMBERS_EACH: u16 = 256;
