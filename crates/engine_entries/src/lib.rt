// The entries on a state: take and free, plain and of a block called by name, and drop, on a state by value and lent order storage of any
// length. Each is the engine's one call, which checks the state handed in; none leaves a check to its caller. A setup is `engine_state`'s.
#![tactic(auto)]

ghost use Rattle.std.specs.Prelude.{◌≡◌, ◌*◌, length};
ghost use Rattle.call_rules.specs.Answers.{After, HasNumberAndValuesOf, PassesIfAccepted, MovesAtMost};
ghost use Rattle.call_rules.specs.Take.{take_of};
ghost use Rattle.call_rules.specs.Free.{free_of};
ghost use Rattle.call_rules.specs.Named.{named_take_of, named_free_of};
ghost use Rattle.call_rules.specs.Drop.{drop_of};

use call_header::CallHeader;
use call_rules::Answer;
use engine_state::call_state;
use heap_rules::State;

// The address of a block for the size, in a superblock of the processor's heap or, of a long size, at the start of a run; or the first refusal.
pub fn take(s: State, order: &mut [u16], processor: u8, size: u16) -> Answer
    ensures order_after { record { answer = result; order = order.new } ≡ take_of s order.old processor size }
    ensures number_and_values { HasNumberAndValuesOf result.outcome (take_of s order.old processor size).answer.outcome }
    ensures passes { PassesIfAccepted result.outcome result.state order.new }
{
    call_state(s, order, CallHeader::Take { processor, size }, &[])
}

// The block or run at the address is free again, and the move rule is followed; or the first refusal.
pub fn free(s: State, order: &mut [u16], processor: u8, address: u32) -> Answer
    ensures order_after { record { answer = result; order = order.new } ≡ free_of s order.old processor address }
    ensures number_and_values { HasNumberAndValuesOf result.outcome (free_of s order.old processor address).answer.outcome }
    ensures passes { PassesIfAccepted result.outcome result.state order.new }
    ensures moves { MovesAtMost s.setup.q result.outcome }
{
    call_state(s, order, CallHeader::Free { processor, address }, &[])
}

// What take does, with the name bound to the block; or the first refusal.
pub fn named_take(s: State, order: &mut [u16], processor: u8, name: u16, size: u16) -> Answer
    ensures order_after { record { answer = result; order = order.new } ≡ named_take_of s order.old processor name size }
    ensures number_and_values { HasNumberAndValuesOf result.outcome (named_take_of s order.old processor name size).answer.outcome }
    ensures passes { PassesIfAccepted result.outcome result.state order.new }
{
    call_state(
        s,
        order,
        CallHeader::NamedTake {
            processor,
            name,
            size,
        },
        &[],
    )
}

// What free does with the address of the block that the name points at; or the first refusal.
pub fn named_free(s: State, order: &mut [u16], processor: u8, name: u16) -> Answer
    ensures order_after { record { answer = result; order = order.new } ≡ named_free_of s order.old processor name }
    ensures number_and_values { HasNumberAndValuesOf result.outcome (named_free_of s order.old processor name).answer.outcome }
    ensures passes { PassesIfAccepted result.outcome result.state order.new }
    ensures moves { MovesAtMost s.setup.q result.outcome }
{
    call_state(s, order, CallHeader::NamedFree { processor, name }, &[])
}

// The blocks at the addresses are free again, and the move rule is followed in each processor heap and class touched; or the first refusal.
pub fn drop(s: State, order: &mut [u16], processor: u8, addresses: &[u32]) -> Answer
    ensures order_after { record { answer = result; order = order.new } ≡ drop_of s order.old processor addresses.now }
    ensures number_and_values { HasNumberAndValuesOf result.outcome (drop_of s order.old processor addresses.now).answer.outcome }
    ensures passes { PassesIfAccepted result.outcome result.state order.new }
    ensures moves { MovesAtMost (s.setup.q * length addresses.now) result.outcome }
{
    call_state(s, order, CallHeader::Drop { processor }, addresses)
}
