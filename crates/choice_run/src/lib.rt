// The lowest-numbered run of neighbouring superblocks that a long block can take, in one pass over the table.
#![tactic(auto)]

ghost use Rattle.std.specs.Prelude.{◌≡◌};
ghost use Rattle.choice_rules.specs.RunChoice.{is_available, lowest_run};

use heap_rules::{State, Superblock, TABLE_LENGTH};

// Unused, or empty in heap 0. The owner is looked at first, so that live blocks are seldom counted.
#[tactic(auto, unfolding(choice_rules::specs::RunChoice::is_available, choice_rules::specs::Choice::empty_in_global, heap_rules::specs::Table::is_unused))]
fn is_available(b: Superblock) -> bool
    ensures { result ≡ is_available b }
{
    if b.owner == 0 {
        heap_tests::live_in(b) == 0
    } else {
        heap_tests::is_unused(b)
    }
}

// The first superblock of the lowest-numbered run of n that are all below N and available. The last `row` superblocks passed are available, and
// those before them end with one that is not: the first n in a row are the run. Where N is above 64, which no setup has, a superblock past the
// table reads as empty in heap 0, so that a run may end there.
pub fn lowest_run(s: State, n: usize) -> Option<usize>
    ensures { result ≡ lowest_run n s }
{
    if n == 0 {
        return Some(0);
    }
    let superblocks = s.setup.superblocks as usize;
    let end = superblocks.min(TABLE_LENGTH);
    let mut row = 0;
    for (k, b) in s.table[..end].iter().enumerate() {
        row = if is_available(*b) { row + 1 } else { 0 };
        if row == n {
            return Some(k + 1 - n);
        }
    }
    if 0 < row && n <= row + (superblocks - end) {
        Some(end - row)
    } else {
        None
    }
}
