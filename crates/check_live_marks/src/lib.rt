// The live blocks of all superblocks of a state as marks in one list.
#![tactic(auto)]

ghost use Rattle.std.specs.Prelude.{◌≡◌, ℕ};
ghost use Rattle.marks_rules.specs.Marks.{is_marked};
ghost use Rattle.heap_rules.specs.Table.{live_blocks, is_live_block};

use heap_rules::{RUN_OWNER, State, Superblock, TABLE_LENGTH};

// The numbers that hold the marks of a table, four for each superblock.
pub const TABLE_WORDS: usize = 4 * TABLE_LENGTH;

// The live blocks of a superblock: its marks, or block 0 alone where it is the first of a run. The owner and the length are looked at here, since
// a call of another crate for each superblock takes longer.
#[tactic(auto, using(crate::proofs::LiveBlocksLaws::live_blocks_by_cases))]
fn live_blocks(b: Superblock) -> [u64; 4]
    ensures { result ≡ live_blocks b }
{
    if b.owner == RUN_OWNER && 0 < b.run {
        [1, 0, 0, 0]
    } else {
        b.live
    }
}

// A mark for each live block of the table: the numbers of superblock k are 4 × k to 4 × k + 3.
// One by one: by `copy_from_slice` the state is copied once more, and its whole check takes 3 to 5 in 100 more instructions (measured).
pub fn marks_of_table(s: State) -> [u64; TABLE_WORDS]
    ensures { (b : ℕ) → is_marked result b ≡ is_live_block s b }
{
    let mut marks = [0; TABLE_WORDS];
    for (k, b) in s.table.iter().enumerate() {
        let [w, x, y, z] = live_blocks(*b);
        marks[4 * k] = w;
        marks[4 * k + 1] = x;
        marks[4 * k + 2] = y;
        marks[4 * k + 3] = z;
    }
    marks
}
