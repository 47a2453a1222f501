// Several numbers read from a slice one after another: the position of the next, and a list of numbers of four bytes.
#![tactic(auto, unfolding(bytes_rules::specs::Bytes::position_after, bytes_rules::specs::Bytes::fours_at))]

ghost use Rattle.std.specs.Prelude.{◌≡◌, ◌-◌, ◌^◌, ◌<◌, take, drop, replicate};
ghost use Rattle.bytes_rules.specs.Bytes.{largest_byte, position_after, fours_at};

use bytes_reader::four_at;
use bytes_rules::LARGEST_BYTE;

// The position i bytes after another, or the slice's end where that is nearer: every number reads the same from there, and no sum of
// positions is too large.
pub fn position_after(bytes: &[u8], at: usize, i: usize) -> usize
    ensures { (result ≡ position_after bytes.now at i) × (result < 2 ^ 63) }
{
    at.saturating_add(i).min(bytes.len())
}

// So many numbers of four bytes each, from a position on, and zeros behind them.
pub fn fours_at(bytes: &[u8], at: usize, count: u8) -> [u32; LARGEST_BYTE]
    ensures { (take count result ≡ fours_at bytes.now at count) × (drop count result ≡ replicate (largest_byte - count) 0) }
{
    let mut numbers = [0; LARGEST_BYTE];
    for (i, number) in numbers[..count as usize].iter_mut().enumerate() {
        *number = four_at(bytes, position_after(bytes, at, 4 * i));
    }
    numbers
}
