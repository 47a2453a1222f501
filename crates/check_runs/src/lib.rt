// The check of a state's runs: each is whole and at most 16 long, its first superblock carries its length, and every other superblock carries 0.
#![tactic(auto)]

ghost use Rattle.std.specs.Prelude.{◌≡◌};
ghost use Rattle.check_rules.specs.Check.{runs_whole};

use class_rules::LONGEST_RUN;
use heap_rules::{RUN_OWNER, Superblock, TABLE_LENGTH};

// The runs of a table are whole: one pass that counts the superblocks of a run still to come.
pub fn runs_valid(table: [Superblock; TABLE_LENGTH]) -> bool
    ensures { result ≡ runs_whole 0 table }
{
    let mut left: u8 = 0;
    for b in &table {
        if 0 < left {
            if b.owner != RUN_OWNER {
                return false;
            }
            if 0 < b.run {
                return false;
            }
            left -= 1;
        } else if b.owner == RUN_OWNER {
            if b.run == 0 {
                return false;
            }
            if LONGEST_RUN < b.run {
                return false;
            }
            left = b.run - 1;
        } else if 0 < b.run {
            return false;
        }
    }
    left == 0
}
