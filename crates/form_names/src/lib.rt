// Reads the names that the input of the program `call` holds. It answers for any bytes: past their end a byte reads as 0.
#![tactic(auto)]

ghost use Rattle.std.specs.Prelude.{◌≡◌, ◌+◌, ◌*◌, ◌<◌};
ghost use Rattle.bytes_rules.specs.Bytes.{two_at};
ghost use Rattle.names_rules.specs.Names.{name_count};
ghost use Rattle.form_rules.specs.Form.{names_in};

use bytes_lists::position_after;
use bytes_reader::two_at;
use names_rules::NAME_COUNT;
use std::array;

// The 1024 names that begin at a position.
#[tactic(auto, using(bytes_rules::proofs::PastEndLaws::two_at_position_after))]
pub fn names_at(bytes: &[u8], at: usize) -> [u16; NAME_COUNT]
    ensures { result ≡ names_in bytes.now at }
{
    array::from_fn(
        |m| -> u16
            requires { m < name_count }
            ensures { result ≡ two_at bytes.entry.now (at + 2 * m) }
        { two_at(bytes, position_after(bytes, at, 2 * m)) },
    )
}
