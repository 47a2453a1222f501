// Reads the totals that the input of the program `call` holds. It answers for any bytes: past their end a byte reads as 0.
#![tactic(auto)]

ghost use Rattle.std.specs.Prelude.{◌≡◌, ◌+◌, ◌*◌, ◌<◌};
ghost use Rattle.bytes_rules.specs.Bytes.{byte_at, two_at};
ghost use Rattle.heap_rules.specs.Totals.{total_count};
ghost use Rattle.form_rules.specs.Form.{totals_in};

use bytes_lists::position_after;
use bytes_reader::{byte_at, two_at};
use heap_rules::{TOTAL_COUNT, Totals};
use std::array;

// The totals of superblocks that begin at a position, and behind them those of live blocks.
#[tactic(auto, using(crate::proofs::TotalsInLaws::byte_at_position_after, bytes_rules::proofs::PastEndLaws::two_at_position_after))]
pub fn totals_at(bytes: &[u8], at: usize) -> Totals
    ensures { result ≡ totals_in bytes.now at }
{
    let superblocks = array::from_fn(
        |x| -> u8
            requires { x < total_count }
            ensures { result ≡ byte_at bytes.entry.now (at + x) }
        { byte_at(bytes, position_after(bytes, at, x)) },
    );
    let live = array::from_fn(
        |x| -> u16
            requires { x < total_count }
            ensures { result ≡ two_at bytes.entry.now (at + (total_count + 2 * x)) }
        { two_at(bytes, position_after(bytes, at, TOTAL_COUNT + 2 * x)) },
    );
    Totals { superblocks, live }
}
