// The tests of an address: unmapped, misaligned, live, and the refusal that they come to. The tests take the superblock that the address
// lies in, and not the state: a state by value is a copy of six kilobytes.
#![tactic(auto)]

ghost use Rattle.std.specs.Prelude.{◌≡◌};
ghost use Rattle.refusal_rules.specs.RefusalNumbers.{number_if_refused};
ghost use Rattle.heap_rules.specs.Table.{blank};
ghost use Rattle.call_rules.specs.Free.{is_unmapped, is_run_start, is_off_block, is_misaligned, is_live_at, address_refusal};
ghost use Rattle.block_refusal.specs.Holding.{ToldBySuperblock, ToldByCountAndSuperblock};

use class_rules::SUPERBLOCK_BYTES;
use heap_rules::{RUN_OWNER, State, Superblock};
use refusal_rules::Refusal;

// The address is past superblocks 0 to N - 1, or in an unused one.
#[tactic(auto, unfolding(call_rules::specs::Free::is_unmapped))]
fn is_unmapped(superblocks: u8, b: Superblock, address: u32) -> bool
    ensures { ToldByCountAndSuperblock result is_unmapped superblocks b address }
{
    u32::from(superblocks) * SUPERBLOCK_BYTES <= address || heap_tests::is_unused(b)
}

// No block of its superblock, which is of no run, starts at the address.
#[tactic(auto, using(crate::proofs::AddressTestLaws::is_off_block_by_size))]
fn is_off_block(b: Superblock, address: u32) -> bool
    ensures { ToldBySuperblock result is_off_block b address }
{
    let size = class_table::block_size(b.class);
    let offset = block_address::offset_of(address);
    size == 0 || offset % size != 0 || class_table::block_count(b.class) <= offset / size
}

// A run starts at the address: its superblock is the first of one, and the address is its first.
#[tactic(auto, unfolding(call_rules::specs::Free::is_run_start))]
fn is_run_start(b: Superblock, address: u32) -> bool
    ensures { ToldBySuperblock result is_run_start b address }
{
    block_address::offset_of(address) == 0 && heap_tests::starts_run(b)
}

// No block starts at the address; in a run its start is the only one.
#[tactic(auto, unfolding(call_rules::specs::Free::is_misaligned, heap_rules::specs::Table::is_of_run))]
fn is_misaligned(b: Superblock, address: u32) -> bool
    ensures { ToldBySuperblock result is_misaligned b address }
{
    if b.owner == RUN_OWNER {
        !is_run_start(b, address)
    } else {
        is_off_block(b, address)
    }
}

// The block at the address is live. A run's first superblock has no marks: its block 0 is live.
#[tactic(auto, using(crate::proofs::AddressTestLaws::is_live_by_start))]
fn is_live_in(b: Superblock, address: u32) -> bool
    ensures { ToldBySuperblock result is_live_at b address }
{
    let j = usize::from(block_address::block_in(b.class, address));
    if heap_tests::starts_run(b) {
        j == 0
    } else {
        marks_bitmap::is_live(b.live, j)
    }
}

// The refusal that the address meets, by N and the superblock that it lies in: the first of 5, 6 and 7 that applies, or none where a live block
// starts there.
#[tactic(auto, unfolding(call_rules::specs::Free::address_refusal))]
pub fn refusal_in(superblocks: u8, b: Superblock, address: u32) -> Result<(), Refusal>
    ensures { ToldByCountAndSuperblock (number_if_refused result) address_refusal superblocks b address }
{
    if is_unmapped(superblocks, b, address) {
        Err(Refusal::AddressUnmapped)
    } else if is_misaligned(b, address) {
        Err(Refusal::AddressMisaligned)
    } else if !is_live_in(b, address) {
        Err(Refusal::BlockNotLive)
    } else {
        Ok(())
    }
}

// The refusal that an address past the table meets: a superblock there reads as empty, of class 0, with blocks of 16 bytes, and of heap 0.
#[tactic(auto, using(crate::proofs::AddressTestLaws::refusal_of_blank))]
fn refusal_past_table(superblocks: u8, address: u32) -> Result<(), Refusal>
    ensures { ToldByCountAndSuperblock (number_if_refused result) address_refusal superblocks blank address }
{
    if u32::from(superblocks) * SUPERBLOCK_BYTES <= address {
        Err(Refusal::AddressUnmapped)
    } else if block_address::offset_of(address) % 16 == 0 {
        Err(Refusal::BlockNotLive)
    } else {
        Err(Refusal::AddressMisaligned)
    }
}

// The refusal that the address meets in a state. N is at most 64 in one that passes the check, so that what lies past the table is unmapped.
pub fn refusal(s: State, address: u32) -> Result<(), Refusal>
    ensures { number_if_refused result ≡ address_refusal s address }
{
    match s.table.get(block_address::superblock_index(address)) {
        Some(&b) => refusal_in(s.setup.superblocks, b, address),
        None => refusal_past_table(s.setup.superblocks, address),
    }
}
