// Drop behind the check, on a state by value and lent order storage that pass it: the check is the caller's to make.
#![tactic(auto)]

ghost use Rattle.std.specs.Prelude.{◌≡◌, true, ◌≤◌, ◌<◌};
ghost use Rattle.class_rules.specs.Classes.{class_count};
ghost use Rattle.refusal_rules.specs.RefusalNumbers.{number_if_refused};
ghost use Rattle.check_rules.specs.Check.{passes};
ghost use Rattle.heap_rules.specs.Table.{table_length};
ghost use Rattle.heap_rules.specs.Totals.{most_processors, heap_count, TotalsKept};
ghost use Rattle.call_rules.specs.Answers.{After, HasNumberAndValuesOf};
ghost use Rattle.call_rules.specs.Drop.{all_freed, all_pushed, then_restored, dropped_all, drop_unchecked};
ghost use Rattle.call_rules.specs.DropLoops.{classes_restored, heaps_restored};
ghost use Rattle.call_drop_addresses.specs.TestedTable.{RunsFit};
ghost use Rattle.call_drop.specs.DropRefusal.{drop_refusal};
ghost use Rattle.call_drop.specs.DropSteps.{FreesSafe, touched_of_heap, touched_in, TellsTouched, CanMove};

use call_rules::{Answer, Outcome};
use class_rules::{CLASS_COUNT, CLASSES};
use heap_rules::{HEAP_COUNT, HEAPS, Moved, State};
use refusal_rules::Refusal;

// The blocks at the addresses are free again, and the move rule is followed in each processor heap and class touched; or refusal 2, 16, or
// that of the first bad address.
pub fn drop(s: State, order: &mut [u16], processor: u8, addresses: &[u32]) -> Answer
    requires { passes s order.old ≡ true }
    ensures order_after { record { answer = result; order = order.new } ≡ drop_unchecked s order.old processor addresses.now }
    ensures number_and_values { HasNumberAndValuesOf result.outcome (drop_unchecked s order.old processor addresses.now).answer.outcome }
{
    match drop_refusal(&s, processor, addresses) {
        Err(refusal) => call_outcomes::refuse(s, refusal.number()),
        Ok(()) => drop_all(s, order, addresses),
    }
}

// The refusals of a drop: its processor's, then that of no address, then that of the first bad one. A reference, as a state by value is a copy.
#[tactic(auto, unfolding(crate::specs::DropRefusal::drop_refusal))]
fn drop_refusal(s: &State, processor: u8, addresses: &[u32]) -> Result<(), Refusal>
    requires { (s.now.setup.superblocks ≤ table_length) × RunsFit s.now.table }
    ensures { number_if_refused result ≡ drop_refusal s.now processor addresses.now }
{
    if !call_states::is_processor(*s, processor) {
        Err(Refusal::NoSuchProcessor)
    } else if addresses.is_empty() {
        Err(Refusal::DropEmpty)
    } else {
        call_drop_addresses::first_address_refusal(*s, addresses)
    }
}

// The frees, and then the moves.
fn drop_all(s: State, order: &mut [u16], addresses: &[u32]) -> Answer
    requires { FreesSafe s addresses.now × TotalsKept s × (s.setup.processors ≤ most_processors) }
    ensures { record { answer = result; order = order.new } ≡ dropped_all s order.old addresses.now }
{
    let touched = touched_pairs(s, addresses);
    let t = free_all(s, order, addresses);
    let m = restore_heaps(t, touched);
    Answer {
        outcome: Outcome::Moves(m.moves),
        state: m.state,
    }
}

// Whether a heap and class is that of a superblock that one of the addresses lies in, for each heap and class. A run is of none.
fn touched_pairs(s: State, addresses: &[u32]) -> [[bool; CLASS_COUNT]; HEAP_COUNT]
    requires { FreesSafe s addresses.now }
    ensures { TellsTouched result s addresses.now }
{
    let mut touched = [[false; CLASS_COUNT]; HEAP_COUNT];
    for &address in addresses {
        let b = s.table[block_address::superblock_index(address)];
        if b.owner < HEAPS {
            touched[b.owner as usize][b.class as usize] = true;
        }
    }
    touched
}

// Each block, or run, is free again, in the order of the addresses, and a block's number in the next place of its superblock's order.
fn free_all(s: State, order: &mut [u16], addresses: &[u32]) -> State
    requires { FreesSafe s addresses.now }
    ensures { (result ≡ all_freed s addresses.now) × (order.new ≡ all_pushed s order.old addresses.now) }
{
    let mut t = s;
    for &address in addresses {
        t = block_release::release_block(t, order, address);
    }
    t
}

// The moves of the processor heaps, heaps rising.
fn restore_heaps(s: State, touched: [[bool; CLASS_COUNT]; HEAP_COUNT]) -> Moved
    requires { TotalsKept s × (s.setup.processors ≤ most_processors) }
    ensures { result ≡ heaps_restored (touched_in touched) s.setup.processors (record { moves = 0; state = s }) }
{
    let mut m = Moved { moves: 0, state: s };
    for heap in 1..=s.setup.processors {
        m = restore_classes(m, heap, touched[heap as usize]);
    }
    m
}

// The moves of a heap's touched classes, classes rising, after those before.
fn restore_classes(before: Moved, heap: u8, touched: [bool; CLASS_COUNT]) -> Moved
    requires { (heap < heap_count) × CanMove before }
    ensures { result ≡ classes_restored (touched_of_heap touched) heap class_count before }
{
    let mut m = before;
    for class in 0..CLASSES {
        if touched[class as usize] {
            m = restore_pair(m, heap, class);
        }
    }
    m
}

// The moves of a heap and class, added to those before.
fn restore_pair(before: Moved, heap: u8, class: u8) -> Moved
    requires { (heap < heap_count) × (class < class_count) × CanMove before }
    ensures { result ≡ then_restored heap class before }
{
    let m = move_transfers::restore_invariant(before.state, heap, class);
    Moved {
        moves: before.moves + m.moves,
        ..m
    }
}
