// Reads the state that the input of the program `call` holds. Each function answers for any bytes: past their end a byte reads as 0.
#![tactic(auto)]

ghost use Rattle.std.specs.Prelude.{◌≡◌, ◌^◌, ◌<◌};
ghost use Rattle.form_rules.specs.Form.{superblock_in, state_in};

use bytes_lists::position_after;
use bytes_reader::{byte_at, eight_at};
use form_layout::{NAMES_OFFSET, RECORD_BYTES, TOTALS_OFFSET};
use heap_rules::{State, Superblock};
use std::array;

// The superblock at a position.
fn superblock_in(bytes: &[u8], at: usize) -> Superblock
    requires { at < 2 ^ 63 }
    ensures { result ≡ superblock_in bytes.now at }
{
    Superblock {
        owner: byte_at(bytes, at),
        class: byte_at(bytes, at + 1),
        live: [
            eight_at(bytes, at + 2),
            eight_at(bytes, at + 10),
            eight_at(bytes, at + 18),
            eight_at(bytes, at + 26),
        ],
        rank: byte_at(bytes, at + 34),
        run: byte_at(bytes, at + 35),
    }
}

// The setup numbers with the 64 superblocks that begin at a position, and behind them the names and the totals.
pub fn state_at(bytes: &[u8], at: usize) -> State
    ensures { result ≡ state_in bytes.now at }
{
    State {
        setup: form_call::setup_in(bytes),
        table: array::from_fn(|k| {
            superblock_in(bytes, position_after(bytes, at, RECORD_BYTES * k))
        }),
        names: form_names::names_at(bytes, position_after(bytes, at, NAMES_OFFSET)),
        totals: form_totals::totals_at(bytes, position_after(bytes, at, TOTALS_OFFSET)),
    }
}
