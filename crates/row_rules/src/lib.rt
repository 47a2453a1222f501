// Calls on a table of superblocks that is lent as a row of records. The rules are in specs/, computed cases of them in proofs/.
#![tactic(auto)]

use call_rules::Outcome;
use heap_rules::{Setup, Superblock, TABLE_LENGTH, Totals};
use names_rules::NAME_COUNT;

// The records that a row is lent from the front of: one more than a row that is accepted has.
pub const RECORD_COUNT: usize = TABLE_LENGTH + 1;

// What a call on a lent row is given and hands back by value: all of a state but its superblocks.
#[derive(Clone, Copy)]
pub struct Control {
    pub setup: Setup,
    pub names: [u16; NAME_COUNT],
    pub totals: Totals,
}

// What a call on a lent row hands back: its outcome and the control after it. The superblocks are in the row.
#[derive(Clone, Copy)]
pub struct RowAnswer {
    pub outcome: Outcome,
    pub control: Control,
}

// The records that a row was lent from the front of, as the call left them, and its answer.
#[derive(Clone, Copy)]
pub struct RecordsAnswer {
    pub records: [Superblock; RECORD_COUNT],
    pub answer: RowAnswer,
}
