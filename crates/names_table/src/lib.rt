// The names of blocks, 0 to 1023: what each points at, in an array with a number for each name.
// Each function is total: a number of 1024 or above is no name, so it is not held, and binding it changes nothing.
#![tactic(auto, unfolding(names_rules::specs::Names::with_name, names_rules::specs::Names::without_block))]

ghost use Rattle.std.specs.Prelude.{◌≡◌, not};
ghost use Rattle.base_laws.specs.Sums.{either};
ghost use Rattle.names_rules.specs.Names.{is_name, block_named, is_held, with_name, without_block};

use names_rules::{NAME_COUNT, NOT_HELD};

// How many names there are, in the width of a name.
const NAMES: u16 = NAME_COUNT as u16;

// The number of the block that a name points at, NOT_HELD where it is not held.
pub fn block_named(names: [u16; NAME_COUNT], name: u16) -> u16
    ensures { result ≡ block_named names name }
{
    names.get(name as usize).copied().unwrap_or(NOT_HELD)
}

// The name is held.
pub fn is_held(names: [u16; NAME_COUNT], name: u16) -> bool
    ensures { result ≡ is_held names name }
{
    name < NAMES && names[name as usize] != NOT_HELD
}

// A take cannot have this name: it is held, or is no name.
pub fn is_unavailable(names: [u16; NAME_COUNT], name: u16) -> bool
    ensures { result ≡ either (not (is_name name)) (is_held names name) }
{
    name >= NAMES || is_held(names, name)
}

// The names with one that points at a block.
pub fn bind(names: [u16; NAME_COUNT], name: u16, block: u16) -> [u16; NAME_COUNT]
    ensures { result ≡ with_name names name block }
{
    let mut next = names;
    if name < NAMES {
        next[name as usize] = block;
    }
    next
}

// The names with none that points at a block.
pub fn unbind_block(names: [u16; NAME_COUNT], block: u16) -> [u16; NAME_COUNT]
    ensures { result ≡ without_block names block }
{
    let mut next = names;
    for held in next.iter_mut() {
        if *held == block {
            *held = NOT_HELD;
        }
    }
    next
}
