// The move rule: while a processor heap has too few live blocks of a class, its emptiest superblock of the class passes to
// heap 0.
#![tactic(auto)]

ghost use Rattle.std.specs.Prelude.{◌≡◌, ◌<◌};
ghost use Rattle.class_rules.specs.Classes.{class_count};
ghost use Rattle.heap_rules.specs.Totals.{heap_count, TotalsKept};
ghost use Rattle.move_rules.specs.Moves.{must_move, transferred, found_transferred, excess_transferred, invariant_restored};

use class_rules::CLASS_COUNT;
use heap_rules::{Moved, State, Superblock};

// The heap and class meet both conditions of the move rule, by the totals kept.
#[tactic(auto, using(crate::proofs::TransferLoopLaws::must_move_from_totals))]
fn must_move(s: State, heap: u8, class: u8) -> bool
    requires { (heap < heap_count) × (class < class_count) × TotalsKept s }
    ensures { result ≡ must_move heap class s }
{
    let n = class_table::block_count(class) as u32;
    let at = heap as usize * CLASS_COUNT + class as usize;
    let a = s.totals.superblocks[at] as u32 * n;
    let u = s.totals.live[at] as u32;
    move_conditions::both_conditions(s.setup, n, a, u)
}

// Superblock k passes to heap 0; past the table's end there is none.
#[tactic(auto, using(crate::proofs::TransferLoopLaws::transferred_past_table), unfolding(move_rules::specs::Moves::transferred))]
fn transfer(s: State, k: usize) -> State
    requires { TotalsKept s }
    ensures { result ≡ transferred k s }
{
    match s.table.get(k) {
        Some(b) => heap_table::replace(s, k, Superblock { owner: 0, ..*b }),
        None => s,
    }
}

// The superblock that was found passes to heap 0.
#[tactic(auto, unfolding(move_rules::specs::Moves::found_transferred))]
fn transfer_found(s: State, found: Option<usize>) -> State
    requires { TotalsKept s }
    ensures { result ≡ found_transferred found s }
{
    match found {
        Some(k) => transfer(s, k),
        None => s,
    }
}

// The moves of a processor heap and class: as many as the rule asks, not one. A `while`, as only the state after each move tells whether one more follows.
#[tactic(auto, using(crate::proofs::TransferLoopLaws::transfer_rules))]
fn transfer_excess(s: State, heap: u8, class: u8) -> Moved
    requires { (0 < heap) × (heap < heap_count) × (class < class_count) × TotalsKept s }
    ensures { result ≡ excess_transferred heap class s }
{
    let mut state = s;
    let mut moves = 0;
    while must_move(state, heap, class) {
        state = transfer_found(state, choice_superblock::emptiest(state, heap, class));
        moves += 1;
    }
    Moved { moves, state }
}

// The moves after frees in the heap and class; none where the heap is heap 0.
#[tactic(auto, unfolding(move_rules::specs::Moves::invariant_restored))]
pub fn restore_invariant(s: State, heap: u8, class: u8) -> Moved
    requires { (heap < heap_count) × (class < class_count) × TotalsKept s }
    ensures { result ≡ invariant_restored heap class s }
{
    if heap == 0 {
        Moved { moves: 0, state: s }
    } else {
        transfer_excess(s, heap, class)
    }
}
