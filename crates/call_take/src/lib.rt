// Take behind the check, on a state by value and lent order storage that pass it: the check is the caller's to make.
#![tactic(auto)]

ghost use Rattle.std.specs.Prelude.{◌≡◌, true, List, ℕ, ◌+◌, ◌*◌, ◌≤◌};
ghost use Rattle.class_rules.specs.Classes.{superblock_bytes, is_long, run_length};
ghost use Rattle.heap_rules.specs.Table.{table_length};
ghost use Rattle.check_rules.specs.Check.{passes};
ghost use Rattle.heap_rules.specs.Totals.{TotalsKept};
ghost use Rattle.choice_rules.specs.RunChoice.{lowest_run};
ghost use Rattle.call_rules.specs.declared.Outcome.TheVariants.{Address};
ghost use Rattle.call_rules.specs.Answers.{HasNumberAndValuesOf};
ghost use Rattle.call_rules.specs.LongBlocks.{run_taken, long_taken_at};
ghost use Rattle.call_rules.specs.Take.{other_places, taken_at, take_unchecked};

use call_rules::{Answer, Outcome};
use class_rules::SUPERBLOCK_BYTES;
use heap_rules::State;
use refusal_rules::Refusal;

// The address of a block for the size, from place 1 or else from the other places, or of a run for a long size; or refusal 2, 4 or 17. A size of 16
// bits is never too large, so refusal 3 is not given.
#[tactic(auto, using(crate::proofs::TakeUncheckedLaws::take_requires))]
pub fn take(s: State, order: &mut [u16], processor: u8, size: u16) -> Answer
    requires { passes s order.old ≡ true }
    ensures order_after { record { answer = result; order = order.new } ≡ take_unchecked s order.old processor size }
    ensures number_and_values { HasNumberAndValuesOf result.outcome (take_unchecked s order.old processor size).answer.outcome }
{
    if !call_states::is_processor(s, processor) {
        return call_outcomes::refuse(s, Refusal::NoSuchProcessor.number());
    }
    if class_of_size::is_long(size) {
        return take_long(s, size);
    }
    let class = class_of_size::class_of(size);
    match choice_superblock::fullest(s, processor, class) {
        Some(k) => block_take::take_from(s, order, k as u8),
        None => take_elsewhere(s, order, processor, class),
    }
}

// The lowest-numbered run for a long size, or refusal 17; whatever the order places are, they stay so.
#[tactic(auto, using(crate::proofs::TakeUncheckedLaws::long_taken_rules))]
fn take_long(s: State, size: u16) -> Answer
    requires { (is_long size ≡ true) × (s.setup.superblocks ≤ table_length) × TotalsKept s }
    ensures { (order : List ℕ) → record { answer = result; order = order } ≡ long_taken_at (run_length size) s order (lowest_run (run_length size) s) }
{
    let n = class_of_size::run_length(size);
    match choice_run::lowest_run(s, n as usize) {
        Some(k) => take_long_at(s, k, n),
        None => call_outcomes::refuse(s, Refusal::NoRun.number()),
    }
}

// The run of n superblocks from k on is taken: its address is the start of superblock k.
fn take_long_at(s: State, k: usize, n: u8) -> Answer
    requires { (k + n ≤ table_length) × TotalsKept s }
    ensures { result ≡ record { outcome = Address (k * superblock_bytes); state = run_taken k n s } }
{
    Answer {
        outcome: Outcome::Address(k as u32 * SUPERBLOCK_BYTES),
        state: block_run::take_run(s, k, n),
    }
}

// A block from places 2 to 4, or refusal 4.
#[tactic(auto, using(crate::proofs::OtherPlacesLaws::take_elsewhere_rules))]
fn take_elsewhere(s: State, order: &mut [u16], heap: u8, class: u8) -> Answer
    requires { TotalsKept s }
    ensures { record { answer = result; order = order.new } ≡ taken_at heap class s order.old None (other_places class s) }
{
    match other_places(s, class) {
        Some(k) => block_acquire::take_from_other(s, order, heap, class, k as u8),
        None => call_outcomes::refuse(s, Refusal::NoSuperblock.number()),
    }
}

// What places 2 to 4 offer, each looked at only where those before it offer nothing.
#[tactic(auto, unfolding(call_rules::specs::Take::other_places))]
fn other_places(s: State, class: u8) -> Option<usize>
    ensures { result ≡ other_places class s }
{
    choice_superblock::fullest(s, 0, class)
        .or_else(|| choice_superblock::lowest_empty(s))
        .or_else(|| choice_superblock::lowest_unused(s))
}
