// The state of the allocator: five setup numbers, a table of superblocks, the names of blocks, and the totals of each heap and class. Its
// table, the counts over it and the totals are defined in specs/; the rules on it have crates of their own (choice_rules, move_rules, check_rules).
#![tactic(auto)]

use class_rules::CLASS_COUNT;
use names_rules::NAME_COUNT;

// How many superblocks a state has.
pub const TABLE_LENGTH: usize = 64;

// The owner field of a superblock that is part of a long block's run, and so of no heap.
pub const RUN_OWNER: u8 = 254;

// The owner field of an unused superblock.
pub const UNUSED_OWNER: u8 = 255;

// The most processors that a setup has.
pub const MOST_PROCESSORS: u8 = 8;

// How many heaps there are: heap 0 and one for each processor.
pub const HEAPS: u8 = MOST_PROCESSORS + 1;

// The same as a length.
pub const HEAP_COUNT: usize = HEAPS as usize;

// How many totals of each kind a state keeps: one for each heap and class.
pub const TOTAL_COUNT: usize = HEAP_COUNT * CLASS_COUNT;

// The marks come last: behind them rank and length would make each superblock eight bytes longer.
#[derive(Clone, Copy)]
pub struct Superblock {
    // 0 the global heap, 1 to MOST_PROCESSORS a processor's heap, RUN_OWNER or UNUSED_OWNER
    pub owner: u8,
    // the size class
    pub class: u8,
    // among those that were freed into since they were last renewed: 1 the latest, 0 none of them
    pub rank: u8,
    // the length of the run of which it is the first, 0 where it is the first of none
    pub run: u8,
    // the live marks: block j is bit j mod 64 of number j / 64
    pub live: [u64; 4],
}

// An unused superblock, as a new setup has it.
pub const UNUSED: Superblock = Superblock {
    owner: UNUSED_OWNER,
    class: 0,
    rank: 0,
    run: 0,
    live: [0; 4],
};

// Document 01's P, N, K, p and q.
#[derive(Clone, Copy)]
pub struct Setup {
    // P, the processors, each with a heap
    pub processors: u8,
    // N, the superblocks that are in use or can be taken into use
    pub superblocks: u8,
    // K, the superblocks' worth of free blocks that a heap keeps of each class before any moves
    pub spare: u8,
    // p / q, the fraction of a heap's blocks that may be free
    pub p: u8,
    pub q: u8,
}

// The totals of each heap and class, those of heap h and class c at h × CLASS_COUNT + c.
#[derive(Clone, Copy)]
pub struct Totals {
    // its superblocks
    pub superblocks: [u8; TOTAL_COUNT],
    // the live blocks in them
    pub live: [u16; TOTAL_COUNT],
}

// All that a call is handed, but the order places, and hands back.
#[derive(Clone, Copy)]
pub struct State {
    pub setup: Setup,
    // the superblocks, by number
    pub table: [Superblock; TABLE_LENGTH],
    // the block that each name points at, as superblock × 256 + block, or names_rules' NOT_HELD
    pub names: [u16; NAME_COUNT],
    pub totals: Totals,
}

// What the move rule did.
#[derive(Clone, Copy)]
pub struct Moved {
    // how many superblocks it passed to heap 0
    pub moves: u8,
    // the state that they left
    pub state: State,
}
