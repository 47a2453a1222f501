// What a choice of a superblock looks for: the owner, the class and the live count of those that meet its criterion.
#![tactic(auto)]

ghost use Rattle.std.specs.Prelude.{◌≡◌};
ghost use Rattle.choice_criteria.specs.Criteria.{owner_sought, class_fits, live_fits};

use heap_rules::UNUSED_OWNER;

// What a scan looks for. An enum, and no trait with a type for each: these four are all, and one scan serves them.
#[derive(Clone, Copy)]
pub enum Criterion {
    // of the heap and class, with a free block
    HasFree { heap: u8, class: u8 },
    // of the heap and class
    Belongs { heap: u8, class: u8 },
    // of heap 0, with nothing live
    Empty,
    Unused,
}

#[tactic(auto, unfolding(crate::specs::Criteria::owner_sought, crate::specs::Criteria::class_fits, crate::specs::Criteria::live_fits))]
impl Criterion {
    // The owner of each superblock that meets the criterion.
    pub fn owner_sought(self) -> u8
        ensures { result ≡ owner_sought self }
    {
        match self {
            Criterion::HasFree { heap, .. } | Criterion::Belongs { heap, .. } => heap,
            Criterion::Empty => 0,
            Criterion::Unused => UNUSED_OWNER,
        }
    }

    // A superblock of class c may meet the criterion.
    pub fn class_fits(self, c: u8) -> bool
        ensures { result ≡ class_fits self c }
    {
        match self {
            Criterion::HasFree { class, .. } | Criterion::Belongs { class, .. } => c == class,
            Criterion::Empty => true,
            Criterion::Unused => c == 0,
        }
    }

    // A superblock with so many live blocks may meet the criterion.
    pub fn live_fits(self, live: u32) -> bool
        ensures { result ≡ live_fits self live }
    {
        match self {
            Criterion::HasFree { class, .. } => live < class_table::block_count(class) as u32,
            Criterion::Belongs { .. } => true,
            Criterion::Empty | Criterion::Unused => live == 0,
        }
    }
}
