// The emptiness invariant of a state handed in: no processor heap and class meets both conditions of the move rule, by the totals of a recount.
#![tactic(auto)]

ghost use Rattle.std.specs.Prelude.{◌≡◌, ◌<◌};
ghost use Rattle.heap_rules.specs.Totals.{heap_count};
ghost use Rattle.check_invariant.specs.TotalsInvariant.{pair_invariant, heap_invariant, totals_invariant};

use class_rules::{CLASS_COUNT, CLASSES};
use heap_rules::{HEAP_COUNT, Setup, Totals};

// So many superblocks of a class with so many live do not meet both conditions. Where there are none, n is not looked up.
fn pair_invariant(setup: Setup, class: u8, superblocks: u8, live: u16) -> bool
    ensures { result ≡ pair_invariant setup class superblocks live }
{
    if superblocks == 0 {
        return true;
    }
    let n = class_table::block_count(class) as u32;
    !move_conditions::both_conditions(setup, n, superblocks as u32 * n, live as u32)
}

// The heap is no processor's, or meets both conditions of the move rule in no class.
fn heap_invariant(setup: Setup, t: &Totals, heap: usize) -> bool
    requires { heap < heap_count }
    ensures { result ≡ heap_invariant setup t.now heap }
{
    heap == 0
        || (setup.processors as usize) < heap
        || (0..CLASSES).all(|c| {
            let at = heap * CLASS_COUNT + c as usize;
            pair_invariant(setup, c, t.superblocks[at], t.live[at])
        })
}

// No processor heap and class meets both conditions of the move rule, by these totals.
pub fn emptiness_invariant(setup: Setup, t: Totals) -> bool
    ensures { result ≡ totals_invariant setup t }
{
    (0..HEAP_COUNT).all(|heap| heap_invariant(setup, &t, heap))
}
