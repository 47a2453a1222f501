// The totals of a heap and class: where they stand, and one superblock counted in them or no longer.
#![tactic(auto)]

ghost use Rattle.std.specs.Prelude.{◌≡◌, ℕ, ◌*◌, ◌<◌, ◌≤◌, IfSome, get_or};
ghost use Rattle.class_rules.specs.Classes.{most_blocks};
ghost use Rattle.heap_rules.specs.Table.{table_length};
ghost use Rattle.heap_rules.specs.Totals.{total_count};
ghost use Rattle.heap_totals.specs.OneSuperblock.{index_of, counted_in, counted_out};

use class_rules::{CLASS_COUNT, CLASSES};
use heap_rules::{HEAPS, Superblock, Totals};

// Where the totals of a heap and class stand, if any are kept of them.
#[tactic(auto, unfolding(crate::specs::OneSuperblock::index_of))]
pub fn index_of(heap: u8, class: u8) -> Option<usize>
    ensures value { result ≡ index_of heap class }
    ensures bound { IfSome result (λ at. at < total_count) }
{
    if heap < HEAPS && class < CLASSES {
        Some(heap as usize * CLASS_COUNT + class as usize)
    } else {
        None
    }
}

// The totals with superblock b counted.
pub fn count_in(mut t: Totals, b: Superblock) -> Totals
    requires { ((x : ℕ) → get_or t.superblocks x 0 ≤ table_length) × ((x : ℕ) → get_or t.live x 0 ≤ table_length * most_blocks) }
    ensures { result ≡ counted_in b t }
{
    if let Some(at) = index_of(b.owner, b.class) {
        t.superblocks[at] += 1;
        t.live[at] += heap_tests::live_in(b) as u16;
    }
    t
}

// The totals with superblock b no longer counted.
pub fn count_out(mut t: Totals, b: Superblock) -> Totals
    ensures { result ≡ counted_out b t }
{
    if let Some(at) = index_of(b.owner, b.class) {
        t.superblocks[at] = t.superblocks[at].saturating_sub(1);
        t.live[at] = t.live[at].saturating_sub(heap_tests::live_in(b) as u16);
    }
    t
}
