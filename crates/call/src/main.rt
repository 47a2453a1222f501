// One call of the engine on a state handed in, by value or as a lent row, read from standard input; the outcome, the next state and
// the order places that changed go to standard output (docs/FORMATS.md, "One call").
#![tactic(auto)]

ghost use Rattle.std.specs.Prelude.{◌≤◌};
ghost use Rattle.program_stream.specs.Stream.{IsPrefixLen};

use call_header::CallHeader;
use call_rules::Answer;
use form_layout::PLACES_OFFSET;
use form_rules::Request;
use heap_rules::State;
use row_rules::{RECORD_COUNT, RecordsAnswer};

// The first byte of a call on a lent row.
const LENT_ROW: u8 = 255;

// The records of the longest row that the program lends.
const LONGEST_ROW: u8 = RECORD_COUNT as u8;

// The program's own order places and addresses.
const MOST_PLACES: usize = 17000;

const MOST_ADDRESSES: usize = 512;

// The bytes of the longest input that the program takes: a drop of so many addresses on a lent row, with so many places.
const LONGEST_INPUT: usize = 2 + 9 + 4 * MOST_ADDRESSES + PLACES_OFFSET + 2 * MOST_PLACES;

// The buffer has one byte more than the longest input, so that an input that it truncates is bad in any case.
fn main(rt: HostRuntime) {
    let mut input = [0u8; LONGEST_INPUT + 1];
    if let Ok(n) = program_stream::read_input(&rt, b"call", &mut input) {
        reply_any(&rt, &input[..n]);
    }
}

// Byte 255 and a length come before a call on a lent row.
fn reply_any(rt: &HostRuntime, bytes: &[u8]) {
    match bytes {
        &[LENT_ROW, length, ..] if length > LONGEST_ROW => reply_bad_input(rt),
        &[LENT_ROW, length, ref bytes @ ..] => reply(rt, Some(length as usize), bytes),
        _ => reply(rt, None, bytes),
    }
}

// Input that is not of the form, or that lends more places or addresses than the program has, calls nothing.
fn reply(rt: &HostRuntime, row: Option<usize>, bytes: &[u8]) {
    let places = form_layout::place_count(bytes);
    let addresses = address_count(bytes);
    if form_layout::well_formed(bytes) && places <= MOST_PLACES && addresses <= MOST_ADDRESSES {
        make_call(rt, row, bytes, places, addresses);
    } else {
        reply_bad_input(rt);
    }
}

fn reply_bad_input(rt: &HostRuntime) {
    let mut text = [0u8; 16];
    let end = answer_text::bad_input_text(&mut text);
    write(rt, &text, end);
}

// How many addresses are lent: none where the call is no drop.
fn address_count(bytes: &[u8]) -> usize {
    match form_call::call_in(bytes) {
        Request::Setup => 0,
        Request::Call { call: _, count } => count as usize,
    }
}

// The program's own storage, and a copy of it, which shows what the call changes; as many places and addresses are lent as the input asks.
fn make_call(rt: &HostRuntime, row: Option<usize>, bytes: &[u8], places: usize, addresses: usize)
    requires { (places ≤ 17000) × (addresses ≤ 512) }
{
    let mut storage = [0u16; MOST_PLACES];
    form_lists::load_places(
        bytes,
        form_layout::places_offset(bytes),
        &mut storage[..places],
    );
    let copy = storage;
    let all = form_lists::load_addresses(bytes);
    let mut call = Call {
        row,
        bytes,
        order: &mut storage[..places],
        before: &copy[..places],
        addresses: &all[..addresses],
    };
    call.print(rt);
}

// A call, and what is lent for it.
#[derive(Drop)]
struct Call<'a, 'o> {
    // the records of the row that is lent; none where the call is on a state
    row: Option<usize>,
    // the input
    bytes: &'a [u8],
    // the order places, and these as they were
    order: &'o mut [u16],
    before: &'a [u16],
    // the addresses of a drop
    addresses: &'a [u32],
}

impl Call<'_, '_> {
    fn print(&mut self, rt: &HostRuntime) {
        let mut text = room();
        let end = self.answer_text(&mut text);
        write(rt, &text, end);
    }

    // Makes the call: its answer as text.
    fn answer_text(&mut self, text: &mut [u8]) -> usize
        ensures { IsPrefixLen result text.new }
    {
        match self.row {
            None => {
                let a = self.answer();
                answer_text::state_answer_text(text, a, self.before, self.order)
            }
            Some(n) => {
                let a = self.row_answer(n);
                answer_text::row_answer_text(text, n, a, self.before, self.order)
            }
        }
    }

    // A setup takes no state.
    fn answer(&mut self) -> Answer {
        match form_call::call_in(self.bytes) {
            Request::Setup => engine_state::setup(form_call::setup_in(self.bytes), self.order),
            Request::Call { call, count: _ } => self.entry_answer(call),
        }
    }

    // A call on the state that the input holds is the entry of its own name.
    fn entry_answer(&mut self, call: CallHeader) -> Answer {
        let s = self.state();
        match call {
            CallHeader::Take { processor, size } => {
                engine_entries::take(s, self.order, processor, size)
            }
            CallHeader::Free { processor, address } => {
                engine_entries::free(s, self.order, processor, address)
            }
            CallHeader::NamedTake {
                processor,
                name,
                size,
            } => engine_entries::named_take(s, self.order, processor, name, size),
            CallHeader::NamedFree { processor, name } => {
                engine_entries::named_free(s, self.order, processor, name)
            }
            CallHeader::Drop { processor } => {
                engine_entries::drop(s, self.order, processor, self.addresses)
            }
        }
    }

    // The superblocks go in as records, the setup numbers, the names and the totals by value.
    fn row_answer(&mut self, n: usize) -> RecordsAnswer {
        match form_call::call_in(self.bytes) {
            Request::Setup => {
                let u = form_call::setup_in(self.bytes);
                row_plain::setup_by_row(n, form_row::other_records(), self.order, u)
            }
            Request::Call { call, count: _ } => {
                let s = self.state();
                let records = form_row::records_of(s.table);
                let control = row_by_value::control_of(s);
                row_plain::call_by_row(n, records, self.order, control, call, self.addresses)
            }
        }
    }

    fn state(&self) -> State {
        form_state::state_at(self.bytes, form_layout::table_offset(self.bytes))
    }
}

// Room for the text of any answer. A caller that made the array itself would have the prover write out its bytes.
fn room() -> [u8; 524288] {
    [0u8; 524288]
}

// Where it fails, standard error has said so already.
fn write(rt: &HostRuntime, text: &[u8], end: usize)
    requires { IsPrefixLen end text.now }
{
    let _ = program_stream::write_output(rt, b"call", &text[..end]);
}
