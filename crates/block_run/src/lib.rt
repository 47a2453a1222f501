// A long block's run: its superblocks taken, and made unused again, one after another.
#![tactic(auto)]

ghost use Rattle.std.specs.Prelude.{◌≡◌, ◌+◌, ◌≤◌, ◌<◌};
ghost use Rattle.heap_rules.specs.Table.{table_length};
ghost use Rattle.heap_rules.specs.Totals.{TotalsKept};
ghost use Rattle.call_rules.specs.LongBlocks.{joined_to_run, run_taken, run_freed};

use heap_rules::{RUN_OWNER, State, Superblock, UNUSED};

// Superblock m becomes part of the run of n superblocks from k on: it leaves the ranking, and carries the run's length where it is the first.
#[tactic(auto, using(crate::proofs::RunStepLaws::unranked_keeps_totals), unfolding(call_rules::specs::LongBlocks::joined_to_run))]
fn join_run(s: State, k: usize, n: u8, m: usize) -> State
    requires { (m < table_length) × TotalsKept s }
    ensures { result ≡ joined_to_run k n m s }
{
    let part = Superblock {
        owner: RUN_OWNER,
        run: if m == k { n } else { 0 },
        ..UNUSED
    };
    heap_table::replace(heap_ranks::unrank(s, m), m, part)
}

// The n superblocks from k on become a run.
pub fn take_run(s: State, k: usize, n: u8) -> State
    requires { (k + n ≤ table_length) × TotalsKept s }
    ensures { result ≡ run_taken k n s }
{
    let mut t = s;
    for m in k..k + usize::from(n) {
        t = join_run(t, k, n, m);
    }
    t
}

// The run of n superblocks from k on becomes unused.
// One loop for this and take_run would take a closure, and be no plainer: what the closure does would be told in a clause, as long as a loop.
pub fn free_run(s: State, k: usize, n: u8) -> State
    requires { (k + n ≤ table_length) × TotalsKept s }
    ensures { result ≡ run_freed k n s }
{
    let mut t = s;
    for i in k..k + usize::from(n) {
        t = heap_table::replace(t, i, UNUSED);
    }
    t
}
