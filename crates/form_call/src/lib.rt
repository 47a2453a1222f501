// The call and the setup numbers in the input of the program `call` (docs/FORMATS.md, "One call"). Each function answers for any bytes:
// past their end a byte reads as 0.
#![tactic(auto)]

ghost use Rattle.std.specs.Prelude.{◌≡◌};
ghost use Rattle.form_rules.specs.declared.Request.TheVariants.{Call};
ghost use Rattle.form_rules.specs.Form.{call_in, setup_in};

use bytes_reader::{byte_at, four_at, two_at};
use call_header::CallHeader;
use form_rules::Request;
use heap_rules::Setup;

// The call that byte 0 names. An unknown byte reads as a drop; `well_formed` (form_layout) is false then.
pub fn call_in(bytes: &[u8]) -> Request
    ensures { result ≡ call_in bytes.now }
{
    let processor = byte_at(bytes, 6);
    match byte_at(bytes, 0) {
        0 => Request::Setup,
        1 => call(CallHeader::Take {
            processor,
            size: two_at(bytes, 7),
        }),
        2 => call(CallHeader::Free {
            processor,
            address: four_at(bytes, 7),
        }),
        3 => {
            let name = two_at(bytes, 7);
            let size = two_at(bytes, 9);
            call(CallHeader::NamedTake {
                processor,
                name,
                size,
            })
        }
        4 => call(CallHeader::NamedFree {
            processor,
            name: two_at(bytes, 7),
        }),
        _ => Request::Call {
            call: CallHeader::Drop { processor },
            count: two_at(bytes, 7),
        },
    }
}

// A call that lends no addresses.
fn call(call: CallHeader) -> Request
    ensures { result ≡ Call call 0 }
{
    Request::Call { call, count: 0 }
}

// The setup numbers.
pub fn setup_in(bytes: &[u8]) -> Setup
    ensures { result ≡ setup_in bytes.now }
{
    Setup {
        processors: byte_at(bytes, 1),
        superblocks: byte_at(bytes, 2),
        spare: byte_at(bytes, 3),
        p: byte_at(bytes, 4),
        q: byte_at(bytes, 5),
    }
}
