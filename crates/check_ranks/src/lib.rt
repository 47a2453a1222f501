// The check of a state's ranking: the ranked superblocks carry 1 upwards, each once without a gap, and none that is unused or
// part of a run is ranked.
// One pass and a bitmap of the ranks met serve: where no rank is met twice, and none is above the number of those ranked, there is no gap.
#![tactic(auto)]

ghost use Rattle.std.specs.Prelude.{◌≡◌};
ghost use Rattle.check_rules.specs.Check.{ranks_valid};

use heap_rules::{RUN_OWNER, State};
use marks_rules::BITS_OF_WORD;

// The ranks are a ranking. The owner is looked at before `is_unowned` is called, so that it seldom is.
pub fn ranks_valid(s: State) -> bool
    ensures { result ≡ ranks_valid s }
{
    let mut met = [0u64; 4];
    let mut ranked: usize = 0;
    let mut highest: usize = 0;
    for b in &s.table {
        let x = b.rank as usize;
        if 0 < x {
            let w = x / BITS_OF_WORD;
            let i = x % BITS_OF_WORD;
            let word = met[w];
            if (word >> i) % 2 == 1 {
                return false;
            }
            if RUN_OWNER <= b.owner {
                if heap_tests::is_unowned(*b) {
                    return false;
                }
            }
            met[w] = word | (1u64 << i);
            ranked += 1;
            if highest < x {
                highest = x;
            }
        }
    }
    highest <= ranked
}
