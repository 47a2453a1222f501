// The check of a state's names: each held name points at a live block, no two at one.
// One pass over the names serves both. It begins with the marks of all live blocks, and each held name takes its block's mark out: a block
// that is not live, or that another name has taken, has no mark left.
#![tactic(auto)]

ghost use Rattle.std.specs.Prelude.{◌≡◌};
ghost use Rattle.check_rules.specs.Check.{names_valid};
ghost use Rattle.check_names.specs.NameScan.{held_count, each_has_a_mark};

use check_live_marks::{TABLE_WORDS, marks_of_table};
use heap_rules::State;
use marks_rules::BITS_OF_WORD;
use names_rules::{NAME_COUNT, NOT_HELD};

// The numbers that the blocks of a table have: 0 up to this.
const NUMBER_COUNT: usize = TABLE_WORDS * BITS_OF_WORD;

// Each held name finds its block's mark, which it takes out. Past the last held name nothing is left to find.
fn each_has_a_mark(mut left: [u64; TABLE_WORDS], names: [u16; NAME_COUNT], held: u16) -> bool
    requires { held ≡ held_count names }
    ensures { result ≡ each_has_a_mark left names }
{
    let mut to_find = held;
    for name in names {
        if name != NOT_HELD {
            let x = name as usize;
            if NUMBER_COUNT <= x {
                return false;
            }
            let w = x / BITS_OF_WORD;
            let b = x % BITS_OF_WORD;
            let m = left[w];
            if (m >> b) % 2 == 0 {
                return false;
            }
            left[w] = m & !(1 << b);
            to_find -= 1;
            if to_find == 0 {
                break;
            }
        }
    }
    true
}

// Each held name points at a live block, no two at one. The held names are counted first: where there is none no mark is looked at.
// A loop counts them, in 16 bits: with `filter` and `count` the check of a state without names takes twice as long (measured).
pub fn names_valid(s: State) -> bool
    ensures { result ≡ names_valid s }
{
    let mut held: u16 = 0;
    for name in &s.names {
        if *name != NOT_HELD {
            held += 1;
        }
    }
    held == 0 || each_has_a_mark(marks_of_table(s), s.names, held)
}
