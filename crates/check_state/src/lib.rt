// The check of a state handed in: the setup numbers, the order places lent, then the rest. The rest is what is asked of each
// superblock alone, then, by one recount, the totals and the emptiness invariant, the names, the ranks, and the runs.
#![tactic(auto)]

ghost use Rattle.std.specs.Prelude.{◌≡◌};
ghost use Rattle.refusal_rules.specs.RefusalNumbers.{number_if_refused};
ghost use Rattle.check_state.specs.FirstRefusal.{first_refusal, counts_valid};

use check_limits::setup_refusal;
use heap_rules::State;
use refusal_rules::Refusal;

// The refusals that all calls on a state share: 13 for setup numbers, 12, the rest of 13. Of the rest, what is asked of each superblock
// alone comes first: it is the longer part.
pub fn first_refusal(s: State, order: &[u16]) -> Result<(), Refusal>
    ensures { number_if_refused result ≡ first_refusal s order.now }
{
    setup_refusal(s.setup, order).map_err(|fault| fault.refusal(Refusal::StateInvalid))?;
    if check_superblock::each_valid(s.setup, s.table, order)
        && counts_valid(&s)
        && check_names::names_valid(s)
        && check_ranks::ranks_valid(s)
        && check_runs::runs_valid(s.table)
    {
        Ok(())
    } else {
        Err(Refusal::StateInvalid)
    }
}

// The totals are those of a recount, by which no heap and class is to move superblocks.
fn counts_valid(s: &State) -> bool
    ensures { result ≡ counts_valid s.now }
{
    let counted = check_recount::recount(s.table);
    check_totals::same_totals(s.totals, counted)
        && check_invariant::emptiness_invariant(s.setup, counted)
}
