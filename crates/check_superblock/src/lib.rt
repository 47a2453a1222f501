// What the check of a state handed in asks of each superblock alone.
#![tactic(auto)]

ghost use Rattle.std.specs.Prelude.{◌≡◌};
ghost use Rattle.check_rules.specs.Check.{is_part_of_run, sparse_if_global};
ghost use Rattle.check_superblock.specs.Alone.{alone_valid, each_valid};

use class_rules::CLASSES;
use heap_rules::{RUN_OWNER, Setup, Superblock, TABLE_LENGTH};

// The superblocks of a table, in the width of their numbers.
const SUPERBLOCKS: u8 = TABLE_LENGTH as u8;

// Each superblock of the table passes.
pub fn each_valid(setup: Setup, table: [Superblock; TABLE_LENGTH], order: &[u16]) -> bool
    ensures { result ≡ each_valid setup table order.now }
{
    (0..SUPERBLOCKS).all(|k| alone_valid(setup, order, k, table[k as usize]))
}

// Superblock k is unused; or it is below N, and part of a run or of a heap and a class, sparse where heap 0 owns it, with marks and places that
// are right. Nothing is asked of the places of a run.
// By `if`: as one condition of `||` and `&&`, the whole check of a full table takes 3 in 100 more instructions (measured).
#[tactic(auto, using(crate::proofs::AloneValidLaws::alone_valid_by_parts))]
fn alone_valid(setup: Setup, order: &[u16], k: u8, b: Superblock) -> bool
    ensures { result ≡ alone_valid setup order.now k b }
{
    if heap_tests::is_unused(b) {
        return true;
    }
    if setup.superblocks <= k {
        return false;
    }
    if is_run_member(b) {
        return true;
    }
    if b.owner <= setup.processors && b.class < CLASSES && sparse_if_global(setup, b) {
        check_filled::places_valid(order, b.live, k, b.class)
    } else {
        false
    }
}

// Part of a long block's run. The owner is looked at here, since a call of another crate for each superblock takes longer.
#[tactic(auto, unfolding(check_rules::specs::Check::is_part_of_run, heap_rules::specs::Table::is_of_run))]
fn is_run_member(b: Superblock) -> bool
    ensures { result ≡ is_part_of_run b }
{
    b.owner == RUN_OWNER && heap_tests::is_part_of_run(b)
}

// A superblock is not heap 0's, or has few enough live blocks. By `if`, since `||` takes longer in the same way.
#[tactic(auto, unfolding(check_rules::specs::Check::sparse_if_global))]
fn sparse_if_global(setup: Setup, b: Superblock) -> bool
    ensures { result ≡ sparse_if_global setup b }
{
    if b.owner == 0 {
        let n = class_table::block_count(b.class) as u32;
        move_conditions::is_sparse(setup, heap_tests::live_in(b), n)
    } else {
        true
    }
}
