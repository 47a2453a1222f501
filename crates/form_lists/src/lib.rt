// Reads the addresses and the order places that the input of the program `call` holds. Each function answers for any bytes: past their end
// a byte reads as 0.
#![tactic(auto)]

ghost use Rattle.std.specs.Prelude.{◌≡◌, ◌+◌, ◌*◌, ◌<◌, length, take};
ghost use Rattle.bytes_rules.specs.Bytes.{four_at, two_at};
ghost use Rattle.form_rules.specs.Form.{drop_addresses, places_in};

use bytes_lists::position_after;
use bytes_reader::{four_at, two_at};
use std::array;

// The addresses of a drop, or the first 512 of more. Where it has fewer, numbers made of the bytes behind them follow.
#[tactic(auto, using(bytes_rules::proofs::PastEndLaws::four_at_position_after))]
pub fn load_addresses(bytes: &[u8]) -> [u32; 512]
    ensures { take (two_at bytes.now 7) result ≡ take 512 (drop_addresses bytes.now) }
{
    array::from_fn(
        |i| -> u32
            requires { i < 512 }
            ensures { result ≡ four_at bytes.entry.now (9 + 4 * i) }
        { four_at(bytes, position_after(bytes, 9, 4 * i)) },
    )
}

// Fills the storage with the places from a position on.
pub fn load_places(bytes: &[u8], at: usize, order: &mut [u16])
    ensures { order.new ≡ places_in bytes.now at (length order.old) }
{
    for (i, place) in order.iter_mut().enumerate() {
        *place = two_at(bytes, position_after(bytes, at, 2 * i));
    }
}
