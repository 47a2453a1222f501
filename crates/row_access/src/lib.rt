// The records of a lent row read as a table, and a table's records written to it.
#![tactic(auto)]

ghost use Rattle.std.specs.Prelude.{◌≡◌};
ghost use Rattle.row_rules.specs.LoadStore.{load_of, store_of};

use heap_rules::{Superblock, TABLE_LENGTH, UNUSED};

// The row's records as a table, or an unused table where they are not 64.
pub fn load(row: &[Superblock]) -> [Superblock; TABLE_LENGTH]
    ensures { result ≡ load_of row.now }
{
    match <[Superblock; TABLE_LENGTH]>::try_from(row) {
        Ok(t) => t,
        Err(_) => [UNUSED; TABLE_LENGTH],
    }
}

// A table's records overwrite the row's, where the call was accepted and they are 64. Else nothing is written.
pub fn store(row: &mut [Superblock], t: [Superblock; TABLE_LENGTH], accepted: bool)
    ensures { row.new ≡ store_of accepted row.old t }
{
    if accepted && row.len() == TABLE_LENGTH {
        row.copy_from_slice(&t);
    }
}
