// Where the parts of the input of the program `call` begin, and whether it is whole (docs/FORMATS.md, "One call"). Each function answers
// for any bytes: past their end a byte reads as 0.
#![tactic(auto)]

ghost use Rattle.std.specs.Prelude.{◌≡◌, ◌^◌, ◌≤◌, ◌<◌};
ghost use Rattle.form_rules.specs.Form.{table_offset, places_offset, place_count, well_formed};

use bytes_reader::{byte_at, four_at, two_at};
use heap_rules::{TABLE_LENGTH, TOTAL_COUNT};
use names_rules::NAME_COUNT;

// The greatest byte that names a call, a drop.
const LAST_CALL: u8 = 5;

// The bytes of a superblock.
pub const RECORD_BYTES: usize = 36;

// Where the names begin, counted from the first superblock.
pub const NAMES_OFFSET: usize = TABLE_LENGTH * RECORD_BYTES;

// Where the totals begin: a name has two bytes.
pub const TOTALS_OFFSET: usize = NAMES_OFFSET + 2 * NAME_COUNT;

// Where they end: one byte for the superblocks of a heap and class, two for their live blocks.
const TOTALS_END: usize = TOTALS_OFFSET + 3 * TOTAL_COUNT;

// Where the order places begin: the four bytes of L come before them.
pub const PLACES_OFFSET: usize = TOTALS_END + 4;

// Where the superblocks begin: a take and a named free have two bytes fewer before them than a free and a named take, and a drop has
// its addresses there, four bytes each.
pub fn table_offset(bytes: &[u8]) -> usize
    ensures { (result ≡ table_offset bytes.now) × (result ≤ 262149) }
{
    match byte_at(bytes, 0) {
        1 | 4 => 9,
        5 => 9 + 4 * two_at(bytes, 7) as usize,
        _ => 11,
    }
}

// ---- the order places

// Where they begin: in all but a setup the superblocks, the names, the totals and the four bytes of L come before.
pub fn places_offset(bytes: &[u8]) -> usize
    ensures { (result ≡ places_offset bytes.now) × (result ≤ 267234) }
{
    match byte_at(bytes, 0) {
        0 => 10,
        _ => table_offset(bytes) + PLACES_OFFSET,
    }
}

// How many are lent: the four bytes before them.
pub fn place_count(bytes: &[u8]) -> usize
    ensures { (result ≡ place_count bytes.now) × (result < 2 ^ 32) }
{
    let at = match byte_at(bytes, 0) {
        0 => 6,
        _ => table_offset(bytes) + TOTALS_END,
    };
    four_at(bytes, at) as usize
}

// The input is a known call with all its bytes and none left over.
pub fn well_formed(bytes: &[u8]) -> bool
    ensures { result ≡ well_formed bytes.now }
{
    byte_at(bytes, 0) <= LAST_CALL && bytes.len() == places_offset(bytes) + 2 * place_count(bytes)
}
