// Live marks taken together: how many there are, and whether any stands at a block or after it.
#![tactic(auto)]

ghost use Rattle.std.specs.Prelude.{◌≡◌, ◌≤◌, ◌-◌, ◌/◌, ◌^◌};
ghost use Rattle.marks_rules.specs.Marks.{mark_count, live_count, no_mark_from};

use marks_rules::BITS_OF_WORD;

// How many blocks are live: the ones in the four numbers.
pub fn live_count(live: [u64; 4]) -> u32
    ensures { (result ≡ live_count live) × (result ≤ mark_count) }
{
    live[0].count_ones() + live[1].count_ones() + live[2].count_ones() + live[3].count_ones()
}

// No block from n on is live: of each number, nothing is left of the bits that stand for those blocks.
pub fn no_mark_from(live: [u64; 4], n: usize) -> bool
    ensures { result ≡ no_mark_from live n }
{
    let a = tail(live[0], n, 0);
    let b = tail(live[1], n, 64);
    let c = tail(live[2], n, 128);
    let d = tail(live[3], n, 192);
    (a | b | c | d) == 0
}

// The bits of w for blocks n and above, where the lowest bit of w stands for block `start`.
fn tail(w: u64, n: usize, start: usize) -> u64
    ensures { result ≡ w / 2 ^ (n - start) }
{
    let m = n.saturating_sub(start);
    if m < BITS_OF_WORD { w >> m } else { 0 }
}
