// The block that a name points at: the name bound to the block at an address, and the address of the block that it points at.
#![tactic(auto)]

ghost use Rattle.std.specs.Prelude.{◌≡◌};
ghost use Rattle.call_rules.specs.Named.{name_bound, bound_by, held_address};

use call_rules::Outcome;
use heap_rules::State;
use names_rules::NUMBERS_EACH;

// The state after a take for the name, by its outcome: only an accepted one binds it.
#[tactic(auto, unfolding(call_rules::specs::Named::bound_by))]
pub fn bound_by(outcome: Outcome, name: u16, s: State) -> State
    ensures { result ≡ bound_by outcome name s }
{
    if let Outcome::Address(address) = outcome {
        bind_name(name, address, s)
    } else {
        s
    }
}

// The state in which the name points at the block at the address.
#[tactic(auto, unfolding(call_rules::specs::Named::name_bound))]
fn bind_name(name: u16, address: u32, s: State) -> State
    ensures { result ≡ name_bound name address s }
{
    let block = block_address::block_number_at(s, address);
    State {
        names: names_table::bind(s.names, name, block),
        ..s
    }
}

// Where the block that the name points at starts.
#[tactic(auto, unfolding(call_rules::specs::Named::held_address))]
pub fn held_address(s: State, name: u16) -> u32
    ensures { result ≡ held_address s name }
{
    let block = names_table::block_named(s.names, name);
    let k = block / NUMBERS_EACH;
    let class = heap_table::class_at(s, usize::from(k));
    block_take::address_of(k as u8, class, block % NUMBERS_EACH)
}
