// Whole states, and the test of a processor.
#![tactic(auto)]

ghost use Rattle.std.specs.Prelude.{◌≡◌, replicate};
ghost use Rattle.heap_rules.specs.Table.{table_length, unused};
ghost use Rattle.heap_rules.specs.States.{no_state, new_state};
ghost use Rattle.call_rules.specs.Answers.{is_processor};

use heap_rules::{Setup, State, Superblock, TABLE_LENGTH, TOTAL_COUNT, Totals, UNUSED};
use names_rules::{NAME_COUNT, NOT_HELD};

// The processor is one of the setup's.
pub fn is_processor(s: State, processor: u8) -> bool
    ensures { result ≡ is_processor s processor }
{
    (1..=s.setup.processors).contains(&processor)
}

// A new setup's state: its numbers, 64 unused superblocks, no names and totals of 0.
pub fn new_state(u: Setup) -> State
    ensures { result ≡ new_state u }
{
    State {
        setup: u,
        table: [UNUSED; TABLE_LENGTH],
        names: [NOT_HELD; NAME_COUNT],
        totals: Totals {
            superblocks: [0u8; TOTAL_COUNT],
            live: [0u16; TOTAL_COUNT],
        },
    }
}

// What a refused setup hands back: five zeros, 64 unused superblocks, no names and totals of 0.
pub fn no_state() -> State
    ensures { result ≡ no_state }
{
    new_state(Setup {
        processors: 0,
        superblocks: 0,
        spare: 0,
        p: 0,
        q: 0,
    })
}

// A table of unused superblocks.
pub fn unused_table() -> [Superblock; TABLE_LENGTH]
    ensures { result ≡ replicate table_length unused }
{
    [UNUSED; TABLE_LENGTH]
}
