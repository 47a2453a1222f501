// The check of one superblock: its marks, and the order places that its free blocks fill.
#![tactic(auto)]

ghost use Rattle.std.specs.Prelude.{◌≡◌, true, ◌+◌, ◌-◌, ◌*◌, ◌≤◌, length};
ghost use Rattle.class_rules.specs.Classes.{most_blocks, blocks_of};
ghost use Rattle.marks_rules.specs.Marks.{live_count, no_mark_from};
ghost use Rattle.order_rules.specs.Order.{places_each};
ghost use Rattle.filled_rules.specs.FilledPlaces.{places_valid, each_once};

use marks_rules::BITS_OF_WORD;
use order_rules::PLACES_EACH;

// Superblock s of a class has no mark past its blocks, and its filled places are lent and hold each unmarked block once.
pub fn places_valid(order: &[u16], live: [u64; 4], s: u8, class: u8) -> bool
    ensures { result ≡ places_valid order.now live s (blocks_of class) }
{
    let n = class_table::block_count(class) as usize;
    if !marks_count::no_mark_from(live, n) {
        return false;
    }
    let m = n - marks_count::live_count(live) as usize;
    let base = s as usize * PLACES_EACH;
    if order.len() < base + m {
        return false;
    }
    each_once(order, live, s, n, m)
}

// The m filled places hold each unmarked block below n once. A block that a place holds is marked in a copy of the live marks:
// m places with different unmarked blocks below n are all n - live of them, so no second pass is needed.
fn each_once(order: &[u16], live: [u64; 4], s: u8, n: usize, m: usize) -> bool
    requires { (n ≤ most_blocks) × (m ≡ n - live_count live) × (s * places_each + m ≤ length order.now) × (no_mark_from live n ≡ true) }
    ensures { result ≡ each_once order.now live s n }
{
    let base = s as usize * PLACES_EACH;
    let mut seen = live;
    for p in 0..m {
        let b = order[base + p] as usize;
        if n <= b {
            return false;
        }
        let w = b / BITS_OF_WORD;
        let k = b % BITS_OF_WORD;
        let x = seen[w];
        if (x >> k) % 2 == 1 {
            return false;
        }
        seen[w] = x | (1u64 << k);
    }
    true
}
