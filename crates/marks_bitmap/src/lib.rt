// The live marks of a superblock, one bit a block, in four 64-bit numbers: block j is bit j mod 64, counted from the lowest, of number j / 64.
// Each function is total: no block has a number of 256 or above, so such a number is not live, and setting or clearing it changes nothing.
#![tactic(auto)]

ghost use Rattle.std.specs.Prelude.{◌≡◌};
ghost use Rattle.marks_rules.specs.Marks.{is_marked, with_mark, without_mark};

use marks_rules::{BITS_OF_WORD, MARK_COUNT};

// Block j is live.
pub fn is_live(live: [u64; 4], j: usize) -> bool
    ensures { result ≡ is_marked live j }
{
    let word = live.get(j / BITS_OF_WORD).copied().unwrap_or(0);
    (word >> (j % BITS_OF_WORD)) % 2 == 1
}

// The marks with block j live.
pub fn set_live(live: [u64; 4], j: usize) -> [u64; 4]
    ensures { result ≡ with_mark live j }
{
    let mut next = live;
    if j < MARK_COUNT {
        next[j / BITS_OF_WORD] |= 1 << (j % BITS_OF_WORD);
    }
    next
}

// The marks with block j not live.
pub fn clear_live(live: [u64; 4], j: usize) -> [u64; 4]
    ensures { result ≡ without_mark live j }
{
    let mut next = live;
    if j < MARK_COUNT {
        next[j / BITS_OF_WORD] &= !(1 << (j % BITS_OF_WORD));
    }
    next
}
