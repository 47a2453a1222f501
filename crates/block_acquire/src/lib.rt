// A heap acquires a superblock from place 2, 3 or 4 of a take, and a block is taken from it.
#![tactic(auto)]

ghost use Rattle.std.specs.Prelude.{◌≡◌, ◌<◌};
ghost use Rattle.heap_rules.specs.Totals.{TotalsKept};
ghost use Rattle.heap_rules.specs.Table.{table_length, superblock_at};
ghost use Rattle.heap_rules.specs.States.{with_superblock};
ghost use Rattle.call_rules.specs.Answers.{HasNumberAndValuesOf};
ghost use Rattle.call_rules.specs.Take.{acquired, acquired_order, unranked_if_empty, taken_from_other};

use call_rules::Answer;
use heap_rules::{State, Superblock, UNUSED};

// The superblock once the heap has acquired it: renewed for the class where nothing is live.
#[tactic(auto, unfolding(call_rules::specs::Take::acquired))]
fn acquire(b: Superblock, heap: u8, class: u8) -> Superblock
    ensures { result ≡ acquired heap class b }
{
    if heap_tests::live_in(b) == 0 {
        Superblock {
            owner: heap,
            class,
            ..UNUSED
        }
    } else {
        Superblock { owner: heap, ..b }
    }
}

// The state with superblock k out of the ranking where nothing is live in it.
#[tactic(auto, unfolding(call_rules::specs::Take::unranked_if_empty))]
fn unrank_if_empty(s: State, k: usize) -> State
    requires { k < table_length }
    ensures { result ≡ unranked_if_empty k s }
{
    if heap_tests::live_in(s.table[k]) == 0 {
        heap_ranks::unrank(s, k)
    } else {
        s
    }
}

// The state once the heap has acquired superblock k.
#[tactic(auto, using(crate::proofs::AcquisitionLaws::unranked_if_empty_keeps_totals))]
fn acquire_at(s: State, heap: u8, class: u8, k: usize) -> State
    requires { (k < table_length) × TotalsKept s }
    ensures { result ≡ with_superblock (unranked_if_empty k s) k (acquired heap class (superblock_at s k)) }
{
    let acquired = acquire(s.table[k], heap, class);
    heap_table::replace(unrank_if_empty(s, k), k, acquired)
}

// The order places of superblock k, which was b, once a heap has acquired it: renewed for the class where nothing is live.
#[tactic(auto, unfolding(call_rules::specs::Take::acquired_order))]
fn acquire_order(b: Superblock, order: &mut [u16], class: u8, k: u8)
    ensures { order.new ≡ acquired_order class k b order.old }
{
    if heap_tests::live_in(b) == 0 {
        order_renewal::renew_order(order, k, class_table::block_count(class));
    }
}

// The heap acquires superblock k from place 2, 3 or 4, and a block is taken from it.
#[tactic(auto, unfolding(call_rules::specs::Take::taken_from_other))]
pub fn take_from_other(s: State, order: &mut [u16], heap: u8, class: u8, k: u8) -> Answer
    requires { (k < table_length) × TotalsKept s }
    ensures order_after { record { answer = result; order = order.new } ≡ taken_from_other heap class k s order.old }
    ensures number_and_values { HasNumberAndValuesOf result.outcome (taken_from_other heap class k s order.old).answer.outcome }
{
    let i = usize::from(k);
    acquire_order(s.table[i], order, class, k);
    block_take::take_from(acquire_at(s, heap, class, i), order, k)
}
