// A block taken from one superblock.
#![tactic(auto)]

ghost use Rattle.std.specs.Prelude.{◌≡◌, ◌<◌};
ghost use Rattle.heap_rules.specs.Table.{table_length};
ghost use Rattle.heap_rules.specs.Totals.{TotalsKept};
ghost use Rattle.call_rules.specs.Answers.{HasNumberAndValuesOf};
ghost use Rattle.call_rules.specs.Take.{address_of, taken_from};

use call_rules::{Answer, Outcome};
use class_rules::SUPERBLOCK_BYTES;
use heap_rules::{State, Superblock};

// Where block j of superblock k starts.
#[tactic(auto, using(crate::proofs::OffsetLaws::block_offset_le), unfolding(call_rules::specs::Take::address_of))]
pub fn address_of(k: u8, class: u8, j: u16) -> u32
    ensures { result ≡ address_of k class j }
{
    let size = u32::from(class_table::block_size(class));
    u32::from(k) * SUPERBLOCK_BYTES + u32::from(j) * size
}

// Takes the block in the last filled place of superblock k's order.
#[tactic(auto, unfolding(call_rules::specs::Take::taken_from, call_rules::specs::Take::next_block))]
pub fn take_from(s: State, order: &[u16], k: u8) -> Answer
    requires { (k < table_length) × TotalsKept s }
    ensures order_value { record { answer = result; order = order.now } ≡ taken_from k s order.now }
    ensures number_and_values { HasNumberAndValuesOf result.outcome (taken_from k s order.now).answer.outcome }
{
    let i = usize::from(k);
    let b = s.table[i];
    let j = order_places::last_filled(order, k, heap_table::filled_in(b));
    let marked = Superblock {
        live: marks_bitmap::set_live(b.live, usize::from(j)),
        ..b
    };
    Answer {
        outcome: Outcome::Address(address_of(k, b.class, j)),
        state: heap_table::replace(s, i, marked),
    }
}
