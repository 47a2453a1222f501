// Reads one record from standard input and prints its key. A record that cannot be read whole has no key.
#![tactic(auto)]

ghost use Rattle.program_stream.specs.Stream.{IsPrefixLen};

use heap_rules::TABLE_LENGTH;
use key_replay::ROOM;
use order_rules::PLACES_EACH;
use record_rules::LONGEST_RECORD;

// A record is at most 60000 bytes: one byte more is enough to know that it is too long, and the rest is not read.
fn main(rt: HostRuntime) {
    let mut input = [0u8; LONGEST_RECORD + 1];
    if let Ok(n) = program_stream::read_input(&rt, b"key", &mut input) {
        print_key(&rt, &input[..n]);
    }
}

// The program's own order storage, and room for any key.
fn print_key(rt: &HostRuntime, record: &[u8]) {
    let mut storage = [0u16; TABLE_LENGTH * PLACES_EACH];
    let mut text = [0u8; ROOM];
    if let Some(end) = key_replay::key(record, &mut storage, &mut text) {
        print(rt, &text, end);
    }
}

// Where it fails, standard error has said so already.
fn print(rt: &HostRuntime, text: &[u8], end: usize)
    requires { IsPrefixLen end text.now }
{
    let _ = program_stream::write_output(rt, b"key", &text[..end]);
}
