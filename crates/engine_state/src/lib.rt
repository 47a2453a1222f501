// The engine: setup, and any call on a state by value, with lent order storage of any length. It checks the state handed in and leaves no
// check to its caller. The calls one by one stand in `engine_entries`.
#![tactic(auto)]

ghost use Rattle.std.specs.Prelude.{◌≡◌};
ghost use Rattle.call_rules.specs.Answers.{After, HasNumberAndValuesOf, PassesIfAccepted, MovesAtMost};
ghost use Rattle.call_rules.specs.Setup.{setup_of};
ghost use Rattle.call_rules.specs.Calls.{call_of, call_with, most_moves};

use call_header::CallHeader;
use call_rules::{Answer, Outcome};
use heap_rules::{Setup, State};
use order_rules::PLACES_EACH;
use refusal_rules::Refusal;

// A new state with its first N × 256 order places 0; or refusal 1, then 12.
pub fn setup(u: Setup, order: &mut [u16]) -> Answer
    ensures order_after { record { answer = result; order = order.new } ≡ setup_of u order.old }
    ensures number_and_values { HasNumberAndValuesOf result.outcome (setup_of u order.old).answer.outcome }
    ensures passes { PassesIfAccepted result.outcome result.state order.new }
{
    match check_limits::setup_refusal(u, order) {
        Err(fault) => {
            let refusal = fault.refusal(Refusal::SetupOutOfLimits);
            call_outcomes::refuse(call_states::no_state(), refusal.number())
        }
        Ok(()) => {
            order_renewal::clear_order(order, usize::from(u.superblocks) * PLACES_EACH);
            Answer {
                outcome: Outcome::Ready,
                state: call_states::new_state(u),
            }
        }
    }
}

// A take or free, plain or of a block called by name, or a drop, whose addresses are lent beside it: the check, then what the call answers behind it.
pub fn call_state(s: State, order: &mut [u16], c: CallHeader, addresses: &[u32]) -> Answer
    ensures order_after { record { answer = result; order = order.new } ≡ call_of s order.old (call_with c addresses.now) }
    ensures number_and_values { HasNumberAndValuesOf result.outcome (call_of s order.old (call_with c addresses.now)).answer.outcome }
    ensures passes { PassesIfAccepted result.outcome result.state order.new }
    ensures moves { MovesAtMost (most_moves s.setup.q (call_with c addresses.now)) result.outcome }
{
    if let Err(refusal) = check_state::first_refusal(s, order) {
        return call_outcomes::refuse(s, refusal.number());
    }
    match c {
        CallHeader::Take { processor, size } => call_take::take(s, order, processor, size),
        CallHeader::Free { processor, address } => call_free::free(s, order, processor, address),
        CallHeader::NamedTake {
            processor,
            name,
            size,
        } => call_named::take(s, order, processor, name, size),
        CallHeader::NamedFree { processor, name } => call_named::free(s, order, processor, name),
        CallHeader::Drop { processor } => call_drop::drop(s, order, processor, addresses),
    }
}
