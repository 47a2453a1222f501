// What freeing a block does to its superblock, or those of its run, to the names and to the order places.
#![tactic(auto)]

ghost use Rattle.std.specs.Prelude.{◌≡◌, ◌+◌, ◌≤◌, ◌<◌};
ghost use Rattle.base_laws.specs.Sums.{pick};
ghost use Rattle.heap_rules.specs.Table.{table_length};
ghost use Rattle.heap_rules.specs.Totals.{TotalsKept};
ghost use Rattle.heap_rules.specs.Ranks.{ranked_latest, RanksFit};
ghost use Rattle.call_rules.specs.LongBlocks.{run_freed};
ghost use Rattle.call_rules.specs.Free.{superblock_index, superblock_holding, is_in_run, mark_cleared, block_pushed, order_pushed, block_freed};

use heap_rules::{RUN_OWNER, State};

// The block at the address is free again, no name points at it, and its number stands in the next place of its superblock's order, unless it is long:
// all in one function, so that its callers hand the state over once.
pub fn release_block(s: State, order: &mut [u16], address: u32) -> State
    requires { (superblock_index address < table_length)
        × (superblock_index address + (superblock_holding s address).run ≤ table_length)
        × TotalsKept s
        × RanksFit s }
    ensures { (result ≡ block_freed s address) × (order.new ≡ order_pushed s order.old address) }
{
    let block = block_address::block_number_at(s, address);
    State {
        names: names_table::unbind_block(s.names, block),
        ..free_block_or_run(s, order, address)
    }
}

// The state with the run at the address unused; or with the block's superblock the last freed into and the block no longer live, and with its number
// in its place.
#[tactic(auto, unfolding(call_rules::specs::Free::order_pushed, heap_rules::specs::Table::is_of_run))]
fn free_block_or_run(s: State, order: &mut [u16], address: u32) -> State
    requires { (superblock_index address < table_length)
        × (superblock_index address + (superblock_holding s address).run ≤ table_length)
        × TotalsKept s
        × RanksFit s }
    ensures { (
        result ≡ pick
        (is_in_run s address)
        (run_freed (superblock_index address) (superblock_holding s address).run s)
        (mark_cleared (ranked_latest (superblock_index address) s) address)
        )
        × (order.new ≡ order_pushed s order.old address) }
{
    let k = block_address::superblock_index(address);
    let b = s.table[k];
    if b.owner == RUN_OWNER {
        block_run::free_run(s, k, b.run)
    } else {
        push_block(s, order, address);
        clear_mark(heap_ranks::rank_latest(s, k), address)
    }
}

// The state with the block at the address no longer live.
#[tactic(auto, unfolding(call_rules::specs::Free::mark_cleared, call_rules::specs::Free::block_of))]
fn clear_mark(s: State, address: u32) -> State
    requires { (superblock_index address < table_length) × TotalsKept s }
    ensures { result ≡ mark_cleared s address }
{
    let k = block_address::superblock_index(address);
    heap_table::replace(s, k, block_address::without_mark(s.table[k], address))
}

// Puts the number of the block at the address in the next place of its superblock's order.
#[tactic(auto, unfolding(call_rules::specs::Free::block_pushed, call_rules::specs::Free::block_of))]
fn push_block(s: State, order: &mut [u16], address: u32)
    requires { superblock_index address < table_length }
    ensures { order.new ≡ block_pushed s order.old address }
{
    let k = block_address::superblock_index(address);
    let b = s.table[k];
    let block = block_address::block_in(b.class, address);
    order_places::put_place(order, k as u32, heap_table::filled_in(b), block);
}
