// The calls on a state and what they answer. The rules are in specs/.
#![tactic(auto)]

use heap_rules::State;

// What a call came to: an accepted setup, the address of a take, the moves of a free or a drop, or the number of a refusal alone.
#[derive(Clone, Copy)]
pub enum Outcome {
    Ready,
    Address(u32),
    Moves(u8),
    Refused(u8),
}

// The outcome with the state after the call.
#[derive(Clone, Copy)]
pub struct Answer {
    pub outcome: Outcome,
    pub state: State,
}
