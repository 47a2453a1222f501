// What a setup is tested for before anything else: its numbers, and the order places lent for them.
#![tactic(auto)]

ghost use Rattle.std.specs.Prelude.{◌≡◌, ℕ};
ghost use Rattle.check_rules.specs.Check.{within_limits};
ghost use Rattle.check_limits.specs.SetupRefusal.{setup_refusal, refusal_of_fault, number_if_fault};

use heap_rules::{MOST_PROCESSORS, Setup, TABLE_LENGTH};
use order_rules::PLACES_EACH;
use refusal_rules::Refusal;

// The most superblocks that a setup has, in the width of its numbers.
const SUPERBLOCKS: u8 = TABLE_LENGTH as u8;

// What a setup is refused for.
#[derive(Clone, Copy, PartialEq, Eq, Debug)]
pub enum SetupFault {
    // A setup number outside its limits.
    OutOfLimits,
    // Too few order places lent.
    StorageTooSmall,
}

impl SetupFault {
    // As a refusal, where setup numbers outside their limits are refused so: those of a setup otherwise than those of a state handed in.
    pub fn refusal(self, numbers: Refusal) -> Refusal
        ensures { result ≡ refusal_of_fault numbers self }
    {
        match self {
            SetupFault::OutOfLimits => numbers,
            SetupFault::StorageTooSmall => Refusal::StorageTooSmall,
        }
    }
}

// The setup numbers are within their limits.
#[tactic(auto, unfolding(check_rules::specs::Check::within_limits))]
fn within_limits(u: Setup) -> bool
    ensures { result ≡ within_limits u }
{
    (1..=MOST_PROCESSORS).contains(&u.processors)
        && (1..=SUPERBLOCKS).contains(&u.superblocks)
        && (1..=16).contains(&u.spare)
        && 1 <= u.p
        && u.p < u.q
        && (2..=8).contains(&u.q)
}

// The refusals of a setup: its numbers, then the order places lent for them.
#[tactic(auto, unfolding(crate::specs::SetupRefusal::setup_refusal))]
pub fn setup_refusal(u: Setup, order: &[u16]) -> Result<(), SetupFault>
    ensures { (numbers : ℕ) → number_if_fault numbers result ≡ setup_refusal numbers u order.now }
{
    if !within_limits(u) {
        Err(SetupFault::OutOfLimits)
    } else if order.len() < u.superblocks as usize * PLACES_EACH {
        Err(SetupFault::StorageTooSmall)
    } else {
        Ok(())
    }
}
