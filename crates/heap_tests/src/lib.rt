// The tests of one superblock, which the choices, the moves, the check of a state and the calls share. Each is total.
#![tactic(auto)]

ghost use Rattle.std.specs.Prelude.{◌≡◌, ◌≤◌, eqb};
ghost use Rattle.base_laws.specs.Sums.{both};
ghost use Rattle.marks_rules.specs.Marks.{mark_count};
ghost use Rattle.heap_rules.specs.Table.{live_in, is_unused, starts_run};
ghost use Rattle.check_rules.specs.Check.{is_part_of_run, is_unowned};

use heap_rules::{RUN_OWNER, Superblock, UNUSED_OWNER};

// How many of its blocks are live.
pub fn live_in(b: Superblock) -> u32
    ensures { (result ≡ live_in b) × (result ≤ mark_count) }
{
    marks_count::live_count(b.live)
}

// The owner is this one, the class 0, and nothing is live. The owner is looked at first, so that live blocks are seldom counted.
fn is_bare(b: Superblock, owner: u8) -> bool
    ensures { result ≡ both (eqb b.owner owner) (both (eqb b.class 0) (eqb (live_in b) 0)) }
{
    b.owner == owner && b.class == 0 && live_in(b) == 0
}

// Of owner UNUSED_OWNER and class 0, nothing live.
pub fn is_unused(b: Superblock) -> bool
    ensures { result ≡ is_unused b }
{
    is_bare(b, UNUSED_OWNER)
}

// Part of a long block's run: of owner RUN_OWNER and class 0, nothing live.
pub fn is_part_of_run(b: Superblock) -> bool
    ensures { result ≡ is_part_of_run b }
{
    is_bare(b, RUN_OWNER)
}

// No heap owns it: it is unused, or part of a run. Its owner is one of the two at most, so that its live blocks are counted once at most.
pub fn is_unowned(b: Superblock) -> bool
    ensures { result ≡ is_unowned b }
{
    is_unused(b) || is_part_of_run(b)
}

// The first superblock of a long block's run, which carries the run's length.
pub fn starts_run(b: Superblock) -> bool
    ensures { result ≡ starts_run b }
{
    b.owner == RUN_OWNER && 0 < b.run
}
