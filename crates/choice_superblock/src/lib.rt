// The choice of a superblock: the four places of a take, and the emptiest of a heap and class. One scan of the table
// serves them all.
#![tactic(auto)]

ghost use Rattle.std.specs.Prelude.{◌≡◌, length};
ghost use Rattle.choice_rules.specs.Choice.{chosen_below, fullest as fullest_of, lowest_empty, lowest_unused, emptiest as emptiest_of};
ghost use Rattle.choice_criteria.specs.Criteria.{meets_criterion};
ghost use Rattle.choice_preference.specs.Preference.{preferred_by};
ghost use Rattle.choice_superblock.specs.Scan.{best_after};

use choice_criteria::Criterion;
use choice_preference::Candidate;
use heap_rules::{State, Superblock, TABLE_LENGTH};

// The best once superblock k, which is b and of the owner sought, was looked at: b where it meets the criterion and there was none yet or it
// is preferred. Its live blocks are counted once, and only where its class fits.
#[tactic(auto, unfolding(crate::specs::Scan::best_after, crate::specs::Scan::replaces_best))]
fn best_after(w: Criterion, best: Option<Candidate>, k: usize, b: Superblock) -> Option<Candidate>
    ensures { result ≡ best_after w best k b }
{
    if !w.class_fits(b.class) {
        return best;
    }
    let live = heap_tests::live_in(b);
    if !w.live_fits(live) {
        return best;
    }
    let candidate = Candidate {
        number: k,
        live,
        rank: b.rank,
    };
    match best {
        Some(known) if !choice_preference::preferred(w, candidate, known) => best,
        _ => Some(candidate),
    }
}

// The best of the superblocks that meet the criterion, the lower number among equals. Those of another owner cost one test.
#[tactic(auto, using(crate::proofs::ScanLaws::scan_rules))]
fn scan(table: &[Superblock], w: Criterion) -> Option<usize>
    ensures { result ≡ chosen_below (meets_criterion w) (preferred_by w) table.now (length table.now) }
{
    let owner = w.owner_sought();
    let mut best = None;
    for (k, b) in table.iter().enumerate() {
        if b.owner == owner {
            best = best_after(w, best, k, *b);
        }
    }
    best.map(|b| b.number)
}

// The heap's superblock of the class with a free block that has the most live, among these the one last freed into.
pub fn fullest(s: State, heap: u8, class: u8) -> Option<usize>
    ensures { result ≡ fullest_of heap class s }
{
    scan(&s.table, Criterion::HasFree { heap, class })
}

// Heap 0's lowest-numbered superblock with nothing live.
pub fn lowest_empty(s: State) -> Option<usize>
    ensures { result ≡ lowest_empty s }
{
    scan(&s.table, Criterion::Empty)
}

// The lowest-numbered unused superblock below N.
pub fn lowest_unused(s: State) -> Option<usize>
    ensures { result ≡ lowest_unused s }
{
    let n = (s.setup.superblocks as usize).min(TABLE_LENGTH);
    scan(&s.table[..n], Criterion::Unused)
}

// The heap's superblock of the class with the fewest live.
pub fn emptiest(s: State, heap: u8, class: u8) -> Option<usize>
    ensures { result ≡ emptiest_of heap class s }
{
    scan(&s.table, Criterion::Belongs { heap, class })
}
