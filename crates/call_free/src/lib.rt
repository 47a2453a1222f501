// Free behind the check, on a state by value and lent order storage that pass it: the check is the caller's to make.
#![tactic(auto)]

ghost use Rattle.std.specs.Prelude.{◌≡◌, true, false, ◌+◌, ◌≤◌, ◌<◌};
ghost use Rattle.class_rules.specs.Classes.{class_count};
ghost use Rattle.refusal_rules.specs.RefusalNumbers.{number_if_refused};
ghost use Rattle.heap_rules.specs.Table.{table_length};
ghost use Rattle.check_rules.specs.Check.{passes};
ghost use Rattle.heap_rules.specs.Totals.{heap_count, TotalsKept};
ghost use Rattle.heap_rules.specs.Ranks.{RanksFit};
ghost use Rattle.call_rules.specs.Answers.{After, HasNumberAndValuesOf};
ghost use Rattle.call_rules.specs.Free.{superblock_index, superblock_holding, is_in_run, freed_at, free_unchecked};
ghost use Rattle.call_free.specs.FreeRefusal.{free_refusal};

use call_rules::{Answer, Outcome};
use heap_rules::{RUN_OWNER, State};
use refusal_rules::Refusal;

// The block at the address is free again, and the move rule is followed; or refusal 2, 5, 6 or 7.
pub fn free(s: State, order: &mut [u16], processor: u8, address: u32) -> Answer
    requires { passes s order.old ≡ true }
    ensures order_after { record { answer = result; order = order.new } ≡ free_unchecked s order.old processor address }
    ensures number_and_values { HasNumberAndValuesOf result.outcome (free_unchecked s order.old processor address).answer.outcome }
{
    match free_refusal(&s, processor, address) {
        Err(refusal) => call_outcomes::refuse(s, refusal.number()),
        Ok(()) => free_at(s, order, address),
    }
}

// The refusals of a free: its processor's, then its address's. A reference, as a state by value is a copy.
#[tactic(auto, unfolding(crate::specs::FreeRefusal::free_refusal))]
fn free_refusal(s: &State, processor: u8, address: u32) -> Result<(), Refusal>
    ensures { number_if_refused result ≡ free_refusal s.now processor address }
{
    if call_states::is_processor(*s, processor) {
        block_refusal::refusal(*s, address)
    } else {
        Err(Refusal::NoSuchProcessor)
    }
}

// The superblock is the last freed into, the mark is cleared and the name let go, the number goes in the next place, and the emptiness
// invariant of the owner's heap and class is restored. A run is of no heap and class: it becomes unused, and nothing moves.
fn free_at(s: State, order: &mut [u16], address: u32) -> Answer
    requires { (superblock_index address < table_length)
        × (superblock_index address + (superblock_holding s address).run ≤ table_length)
        × (is_in_run s address ≡ false → ((superblock_holding s address).owner < heap_count) × ((superblock_holding s address).class < class_count))
        × TotalsKept s
        × RanksFit s }
    ensures { record { answer = result; order = order.new } ≡ freed_at s order.old address }
{
    let b = s.table[block_address::superblock_index(address)];
    let t = block_release::release_block(s, order, address);
    if b.owner == RUN_OWNER {
        Answer {
            outcome: Outcome::Moves(0),
            state: t,
        }
    } else {
        let m = move_transfers::restore_invariant(t, b.owner, b.class);
        Answer {
            outcome: Outcome::Moves(m.moves),
            state: m.state,
        }
    }
}
