// Which of two superblocks that meet its criterion a choice takes, by live count and rank.
#![tactic(auto)]

ghost use Rattle.std.specs.Prelude.{◌≡◌};
ghost use Rattle.choice_preference.specs.Preference.{more_recent_rank, preferred_by_numbers};

use choice_criteria::Criterion;

// A superblock that meets the criterion: its number, and of it what the choice compares.
#[derive(Clone, Copy)]
pub struct Candidate {
    pub number: usize,
    pub live: u32,
    pub rank: u8,
}

// A superblock of the rank was freed into more recently than one of the other rank: one that is not ranked comes last.
#[tactic(auto, unfolding(crate::specs::Preference::more_recent_rank))]
fn more_recent(rank: u8, other: u8) -> bool
    ensures { result ≡ more_recent_rank rank other }
{
    0 < rank && (other == 0 || rank < other)
}

// The choice prefers superblock b to the best so far. Where it goes by the number alone it prefers none, so that the lower number stays.
#[tactic(auto, unfolding(crate::specs::Preference::preferred_by_numbers))]
pub fn preferred(w: Criterion, b: Candidate, best: Candidate) -> bool
    ensures { result ≡ preferred_by_numbers w b best }
{
    match w {
        Criterion::HasFree { .. } => best.live < b.live
            || b.live == best.live && more_recent(b.rank, best.rank),
        Criterion::Belongs { .. } => b.live < best.live,
        Criterion::Empty | Criterion::Unused => false,
    }
}
