// The two conditions of the move rule. Each function is total: products and sums are taken in 64 bits, where none of them can overflow.
#![tactic(auto)]

ghost use Rattle.std.specs.Prelude.{◌≡◌, ◌-◌, ◌*◌, ltb};
ghost use Rattle.move_rules.specs.Moves.{both_conditions};

use heap_rules::Setup;

// The second condition, q × u < (q - p) × a, which each superblock of heap 0 has to meet as well. It is multiplied out, so that
// nothing is rounded.
pub fn is_sparse(setup: Setup, live: u32, blocks: u32) -> bool
    ensures { result ≡ ltb (setup.q * live) ((setup.q - setup.p) * blocks) }
{
    let left = setup.q as u64 * live as u64;
    let right = setup.q.saturating_sub(setup.p) as u64 * blocks as u64;
    left < right
}

// Both conditions, for n blocks in a superblock, a blocks in all and u of them live.
#[tactic(auto, unfolding(move_rules::specs::Moves::both_conditions))]
pub fn both_conditions(setup: Setup, n: u32, a: u32, u: u32) -> bool
    ensures { result ≡ both_conditions setup.spare setup.p setup.q n a u }
{
    let left = u as u64 + setup.spare as u64 * n as u64;
    left < a as u64 && is_sparse(setup, u, a)
}
