// A take and a free of a block called by name, behind the check, on a state by value and lent order storage that pass it: what the plain
// calls do, with the name bound to the block taken, or the held address freed.
#![tactic(auto)]

ghost use Rattle.std.specs.Prelude.{◌≡◌, true};
ghost use Rattle.refusal_rules.specs.RefusalNumbers.{number_if_refused};
ghost use Rattle.check_rules.specs.Check.{passes};
ghost use Rattle.call_rules.specs.Answers.{After, HasNumberAndValuesOf};
ghost use Rattle.call_rules.specs.Named.{named_take_unchecked, named_free_unchecked};
ghost use Rattle.call_named.specs.NamedRefusals.{named_take_refusal, named_free_refusal};

use call_rules::Answer;
use heap_rules::State;
use refusal_rules::Refusal;

// The address of a block or a run for the size, with the name bound to it; or refusal 2, 14, 4 or 17.
pub fn take(s: State, order: &mut [u16], processor: u8, name: u16, size: u16) -> Answer
    requires { passes s order.old ≡ true }
    ensures order_after { record { answer = result; order = order.new } ≡ named_take_unchecked s order.old processor name size }
    ensures number_and_values { HasNumberAndValuesOf result.outcome (named_take_unchecked s order.old processor name size).answer.outcome }
{
    match take_refusal(&s, processor, name) {
        Err(refusal) => call_outcomes::refuse(s, refusal.number()),
        Ok(()) => {
            let plain = call_take::take(s, order, processor, size);
            Answer {
                outcome: plain.outcome,
                state: block_name::bound_by(plain.outcome, name, plain.state),
            }
        }
    }
}

// The refusals of a named take before the plain one's: its processor's, then its name's. A reference, as a state by value is a copy.
#[tactic(auto, unfolding(crate::specs::NamedRefusals::named_take_refusal, call_rules::specs::Named::is_unavailable))]
fn take_refusal(s: &State, processor: u8, name: u16) -> Result<(), Refusal>
    ensures { number_if_refused result ≡ named_take_refusal s.now processor name }
{
    if !call_states::is_processor(*s, processor) {
        Err(Refusal::NoSuchProcessor)
    } else if names_table::is_unavailable(s.names, name) {
        Err(Refusal::NameUnavailable)
    } else {
        Ok(())
    }
}

// The block or run that the name points at is free again, its name let go, and the move rule is followed; or refusal 2 or 15. A held name's
// block is live, so that its address meets no refusal.
pub fn free(s: State, order: &mut [u16], processor: u8, name: u16) -> Answer
    requires { passes s order.old ≡ true }
    ensures order_after { record { answer = result; order = order.new } ≡ named_free_unchecked s order.old processor name }
    ensures number_and_values { HasNumberAndValuesOf result.outcome (named_free_unchecked s order.old processor name).answer.outcome }
{
    match free_refusal(&s, processor, name) {
        Err(refusal) => call_outcomes::refuse(s, refusal.number()),
        Ok(()) => call_free::free(s, order, processor, block_name::held_address(s, name)),
    }
}

// The refusals of a named free before the plain one's.
#[tactic(auto, unfolding(crate::specs::NamedRefusals::named_free_refusal))]
fn free_refusal(s: &State, processor: u8, name: u16) -> Result<(), Refusal>
    ensures { number_if_refused result ≡ named_free_refusal s.now processor name }
{
    if !call_states::is_processor(*s, processor) {
        Err(Refusal::NoSuchProcessor)
    } else if !names_table::is_held(s.names, name) {
        Err(Refusal::NameNotHeld)
    } else {
        Ok(())
    }
}
