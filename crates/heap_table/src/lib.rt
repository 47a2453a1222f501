// Superblock k of a state: read, and replaced with the totals kept.
// Each function that reads is total, as the definitions are: past the table's 64 superblocks the owner and the class read as 0.
#![tactic(auto)]

ghost use Rattle.std.specs.Prelude.{◌≡◌, ◌-◌, ◌≤◌, ◌<◌};
ghost use Rattle.class_rules.specs.Classes.{most_blocks, blocks_of};
ghost use Rattle.heap_rules.specs.Table.{table_length, superblock_at, live_in};
ghost use Rattle.heap_rules.specs.States.{with_superblock};
ghost use Rattle.heap_rules.specs.Totals.{TotalsKept};

use heap_rules::{State, Superblock};

// Its owner.
pub fn owner_at(s: State, k: usize) -> u8
    ensures { result ≡ (superblock_at s k).owner }
{
    s.table.get(k).map_or(0, |b| b.owner)
}

// Its size class.
pub fn class_at(s: State, k: usize) -> u8
    ensures { result ≡ (superblock_at s k).class }
{
    s.table.get(k).map_or(0, |b| b.class)
}

// How many places of a superblock's order are filled: n - live.
pub fn filled_in(b: Superblock) -> u16
    ensures { (result ≡ blocks_of b.class - live_in b) × (result ≤ most_blocks) }
{
    let live = heap_tests::live_in(b) as u16;
    class_table::block_count(b.class).saturating_sub(live)
}

// The state with superblock k replaced: the totals no longer count the old one, and count the new one.
pub fn replace(mut s: State, k: usize, b: Superblock) -> State
    requires { (k < table_length) × TotalsKept s }
    ensures { result ≡ with_superblock s k b }
{
    let without = heap_totals::count_out(s.totals, s.table[k]);
    s.totals = heap_totals::count_in(without, b);
    s.table[k] = b;
    s
}
