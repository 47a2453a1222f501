// The block at an address. The functions are total, as the definitions are: past the table's 64 superblocks no block has a number, and a
// class with no block size has no blocks.
#![tactic(auto)]

ghost use Rattle.std.specs.Prelude.{◌≡◌, ◌/◌};
ghost use Rattle.class_rules.specs.Classes.{size_of};
ghost use Rattle.heap_rules.specs.Table.{without_mark_at};
ghost use Rattle.call_rules.specs.Free.{superblock_index, offset_of, block_of, block_number_at};

use class_rules::SUPERBLOCK_BYTES;
use heap_rules::{State, Superblock, TABLE_LENGTH};
use names_rules::{NOT_HELD, NUMBERS_EACH};

// The number of the superblock that the address lies in: 64 or above past the table.
pub fn superblock_index(address: u32) -> usize
    ensures { result ≡ superblock_index address }
{
    (address / SUPERBLOCK_BYTES) as usize
}

// How far into its superblock the address lies.
pub fn offset_of(address: u32) -> u16
    ensures { result ≡ offset_of address }
{
    (address % SUPERBLOCK_BYTES) as u16
}

// The block of a superblock of the class that the address lies in; 0 where the class has no block size.
pub fn block_in(class: u8, address: u32) -> u16
    ensures { result ≡ offset_of address / size_of class }
{
    offset_of(address)
        .checked_div(class_table::block_size(class))
        .unwrap_or(0)
}

// The superblock with the mark of its block at the address cleared.
pub fn without_mark(b: Superblock, address: u32) -> Superblock
    ensures { result ≡ without_mark_at b (offset_of address / size_of b.class) }
{
    let block = block_in(b.class, address);
    Superblock {
        live: marks_bitmap::clear_live(b.live, usize::from(block)),
        ..b
    }
}

// The block that the address lies in.
#[tactic(auto, unfolding(call_rules::specs::Free::block_of))]
pub fn block_at(s: State, address: u32) -> u16
    ensures { result ≡ block_of s address }
{
    let class = heap_table::class_at(s, superblock_index(address));
    block_in(class, address)
}

// The number by which a name points at that block, superblock × NUMBERS_EACH + block; NOT_HELD past the table.
#[tactic(auto, unfolding(call_rules::specs::Free::block_number_at))]
pub fn block_number_at(s: State, address: u32) -> u16
    ensures { result ≡ block_number_at s address }
{
    let k = superblock_index(address);
    if k < TABLE_LENGTH {
        k as u16 * NUMBERS_EACH + block_at(s, address)
    } else {
        NOT_HELD
    }
}
