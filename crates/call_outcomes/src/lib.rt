// The number of an outcome, and the answer that is a refusal.
#![tactic(auto)]

ghost use Rattle.std.specs.Prelude.{◌≡◌};
ghost use Rattle.call_rules.specs.declared.Outcome.TheVariants.{Refused};
ghost use Rattle.call_rules.specs.Answers.{number_of, HasNumberAndValuesOf};

use call_rules::{Answer, Outcome};
use heap_rules::State;

// Document 01's number for an outcome: 0 where the call is accepted.
#[tactic(auto, unfolding(call_rules::specs::Answers::number_of))]
pub fn number_of(outcome: Outcome) -> u8
    ensures { result ≡ number_of outcome }
{
    match outcome {
        Outcome::Ready | Outcome::Address(_) | Outcome::Moves(_) => 0,
        Outcome::Refused(number) => number,
    }
}

// The refusal with its number alone.
pub fn refuse(s: State, number: u8) -> Answer
    ensures value { result ≡ record { outcome = Refused number; state = s } }
    ensures number_and_values { HasNumberAndValuesOf result.outcome (Refused number) }
{
    Answer {
        outcome: Outcome::Refused(number),
        state: s,
    }
}
