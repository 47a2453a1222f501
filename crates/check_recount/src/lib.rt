// The recount of a table: the superblocks of each heap and class, and the live blocks in them, in one pass.
#![tactic(auto)]

ghost use Rattle.std.specs.Prelude.{◌≡◌};
ghost use Rattle.heap_rules.specs.Totals.{recounted};

use heap_rules::{Superblock, TABLE_LENGTH, TOTAL_COUNT, Totals};

// The totals of the table.
pub fn recount(table: [Superblock; TABLE_LENGTH]) -> Totals
    ensures { result ≡ recounted table }
{
    let mut superblocks = [0u8; TOTAL_COUNT];
    let mut live = [0u16; TOTAL_COUNT];
    for b in table {
        if let Some(at) = heap_totals::index_of(b.owner, b.class) {
            superblocks[at] += 1;
            live[at] += heap_tests::live_in(b) as u16;
        }
    }
    Totals { superblocks, live }
}
