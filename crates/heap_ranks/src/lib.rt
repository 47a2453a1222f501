// The ranking of the superblocks, changed: one pass over the table each, in place on one copy of the state.
#![tactic(auto)]

ghost use Rattle.std.specs.Prelude.{◌≡◌, ◌<◌};
ghost use Rattle.heap_rules.specs.Table.{table_length};
ghost use Rattle.heap_rules.specs.Ranks.{ranked_latest, unranked, RanksFit};

use heap_rules::{State, TABLE_LENGTH};

// Past the last rank that a superblock can have.
const PAST_RANKS: u8 = TABLE_LENGTH as u8 + 1;

// Superblock k was freed into: it is the latest, and each that was ahead of it goes one back.
pub fn rank_latest(mut s: State, k: usize) -> State
    requires { (k < table_length) × RanksFit s }
    ensures { result ≡ ranked_latest k s }
{
    let was = s.table[k].rank;
    // all that are ranked were ahead of one that was not
    let behind = if was == 0 { PAST_RANKS } else { was };
    for b in s.table.iter_mut() {
        if 0 < b.rank && b.rank < behind {
            b.rank += 1;
        }
    }
    s.table[k].rank = 1;
    s
}

// Superblock k leaves the ranking: each that was behind it goes one ahead. One that was not ranked, as none past the table is, leaves no gap.
pub fn unrank(mut s: State, k: usize) -> State
    ensures { result ≡ unranked k s }
{
    if k >= TABLE_LENGTH || s.table[k].rank == 0 {
        return s;
    }
    let was = s.table[k].rank;
    for b in s.table.iter_mut() {
        if was < b.rank {
            b.rank -= 1;
        }
    }
    s.table[k].rank = 0;
    s
}
