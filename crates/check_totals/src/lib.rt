// The check of a state's totals: those kept are those counted. What is kept may be any number of its width, and is only compared.
#![tactic(auto)]

ghost use Rattle.std.specs.Prelude.{◌≡◌};
ghost use Rattle.check_rules.specs.Check.{same_totals};

use heap_rules::Totals;

// The totals are equal.
pub fn same_totals(kept: Totals, counted: Totals) -> bool
    ensures { result ≡ same_totals kept counted }
{
    kept.superblocks == counted.superblocks && kept.live == counted.live
}
