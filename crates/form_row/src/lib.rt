// The records that the program `call` lends a row of (docs/FORMATS.md, "On a lent row"), 65 of them.
#![tactic(auto)]

ghost use Rattle.std.specs.Prelude.{◌≡◌, replicate, [], ◌∷◌, ◌++◌};
ghost use Rattle.row_rules.specs.Borrowed.{record_count};
ghost use Rattle.form_row.specs.Records.{other_record};

use heap_rules::{Superblock, TABLE_LENGTH};
use row_rules::RECORD_COUNT;

// Records for a setup: each such that no superblock of a sound state is like it, so that they show what a call writes.
pub fn other_records() -> [Superblock; RECORD_COUNT]
    ensures { result ≡ replicate record_count other_record }
{
    [Superblock {
        owner: 9,
        class: 9,
        live: [9; 4],
        rank: 9,
        run: 9,
    }; RECORD_COUNT]
}

// A table's 64 superblocks, and one such record more.
pub fn records_of(table: [Superblock; TABLE_LENGTH]) -> [Superblock; RECORD_COUNT]
    ensures { result ≡ table ++ (other_record ∷ []) }
{
    let mut records = other_records();
    records[..TABLE_LENGTH].copy_from_slice(&table);
    records
}
