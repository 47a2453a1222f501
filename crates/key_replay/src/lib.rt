// The printed key of a record.
#![tactic(auto)]

ghost use Rattle.std.specs.Prelude.{◌≡◌, true, false, ◌≤◌};
ghost use Rattle.record_rules.specs.Record.{longest_record, command_at, call_size};
ghost use Rattle.record_rules.specs.declared.Command.TheVariants as command;
ghost use Rattle.key_rules.specs.Key.{KeyOrNoRoom};
ghost use Rattle.key_replay.specs.Steps.{
  InBounds,
  Stepped,
  CallAt,
  lent,
  lent_ahead,
  closed,
  past,
  stop_of,
  is_going,
  is_stopped,
};

use call_header::CallHeader;
use heap_rules::{Setup, State};
use record_rules::Command;
use text_writer::Text;

// Bytes that hold the key of any record.
pub const ROOM: usize = 655360;

// How far the replay of a record has come: commands are left, it has read them all, or it has printed its stop line.
#[derive(Clone, Copy)]
enum Progress {
    Going,
    Ended,
    Stopped,
}

impl Progress {
    fn is_going(self) -> bool
        ensures { result ≡ is_going self }
    {
        matches!(self, Progress::Going)
    }

    fn is_stopped(self) -> bool
        ensures { result ≡ is_stopped self }
    {
        matches!(self, Progress::Stopped)
    }
}

// The replay of a record, between two commands: the record, what is lent to it, the state, the position in the record, and how far it
// has come.
#[derive(Drop)]
struct Replay<'r, 'o, 't, 'b> {
    bytes: &'r [u8],
    order: &'o mut [u16],
    text: &'t mut Text<'b>,
    state: State,
    at: usize,
    progress: Progress,
}

impl Replay<'_, '_, '_, '_> {
    // Every command of the record, up to its end or a stop.
    fn run(&mut self)
        requires { InBounds self.old }
        ensures in_bounds { InBounds self.new }
        ensures done { is_going self.new.progress ≡ false }
        ensures same { lent_ahead self.new ≡ lent_ahead self.old }
    {
        while self.progress.is_going() {
            self.step();
        }
    }

    // The lines after the last command: none after a stop line.
    fn close(&mut self, stopped: bool)
        requires { InBounds self.old }
        ensures { lent self.new ≡ closed stopped self.old }
    {
        line_final::closing_lines(self.text, stopped, self.state);
    }

    // The command at the position.
    fn step(&mut self)
        requires { InBounds self.old × (is_going self.old.progress ≡ true) }
        ensures { Stepped self.old self.new }
    {
        match record_decoder::command_at(self.bytes, self.at) {
            Command::Setup {
                processors,
                superblocks,
                spare,
                p,
                q,
            } => self.setup_step(Setup {
                processors,
                superblocks,
                spare,
                p,
                q,
            }),
            Command::Call { call, count, first } => {
                if count == 0 {
                    self.call_step(call, &[], 0);
                } else {
                    self.drop_step(call, count, first);
                }
            }
            Command::Refused { number, offset } => self.stop_step(number, offset),
        }
    }

    // A setup, whose refusal stops the record.
    fn setup_step(&mut self, u: Setup)
        requires { InBounds self.old × (is_going self.old.progress ≡ true)
            × (command.Setup u.processors u.superblocks u.spare u.p u.q ≡ command_at self.old.bytes.now self.old.at) }
        ensures { Stepped self.old self.new }
    {
        let a = engine_state::setup(u, self.order);
        let number = call_outcomes::number_of(a.outcome);
        if number != 0 {
            return self.stop_step(number, 0);
        }
        line_setup::setup_line(self.text, u);
        self.state = a.state;
        self.pass(6);
    }

    // A call with addresses, a drop, with these out of the record. No other command makes this array.
    fn drop_step(&mut self, call: CallHeader, count: u8, first: u32)
        requires { InBounds self.old × (is_going self.old.progress ≡ true)
            × (command.Call call count first ≡ command_at self.old.bytes.now self.old.at) }
        ensures { Stepped self.old self.new }
    {
        let addresses = bytes_lists::fours_at(self.bytes, first as usize, count);
        self.call_step(call, &addresses[..count as usize], count);
    }

    // A call prints its outcome, a refusal too, and the record goes on. Only a drop has addresses, so many.
    fn call_step(&mut self, call: CallHeader, addresses: &[u32], count: u8)
        requires { InBounds self.old × (is_going self.old.progress ≡ true)
            × CallAt self.old.bytes.now self.old.at call addresses.now count }
        ensures { Stepped self.old self.new }
    {
        let a = engine_state::call_state(self.state, self.order, call, addresses);
        line_calls::call_line(self.text, call, count, a.outcome);
        self.state = a.state;
        self.pass(call_size(call, count));
    }

    // The stop line, after which nothing is read or printed.
    fn stop_step(&mut self, number: u8, offset: u32)
        ensures { self.new ≡ stop_of self.old number offset }
    {
        line_setup::stop_line(self.text, number, offset);
        self.progress = Progress::Stopped;
    }

    // After a command that was read whole: the record goes on while it has bytes.
    fn pass(&mut self, size: usize)
        requires { (self.old.at ≤ longest_record) × (size ≤ 1023) }
        ensures { self.new ≡ past self.old size }
    {
        self.at += size;
        self.progress = if self.at < self.bytes.len() {
            Progress::Going
        } else {
            Progress::Ended
        };
    }
}

// Prints the key of the record into the first bytes of `out`, with the order storage that is lent. Where `out` has not ROOM bytes
// nothing is changed.
pub fn key(bytes: &[u8], order: &mut [u16], out: &mut [u8]) -> Option<usize>
    ensures { KeyOrNoRoom bytes.now order.old out.old result order.new out.new }
{
    if out.len() < ROOM {
        return None;
    }
    let mut text = Text::new(out);
    let mut replay = Replay {
        bytes,
        order,
        text: &mut text,
        state: call_states::no_state(),
        at: 0,
        progress: Progress::Going,
    };
    replay.run();
    let stopped = replay.progress.is_stopped();
    replay.close(stopped);
    Some(text.end)
}

// The bytes of a call's command.
#[tactic(auto, unfolding(record_rules::specs::Record::call_size))]
fn call_size(call: CallHeader, count: u8) -> usize
    ensures { (result ≡ call_size call count) × (result ≤ 1023) }
{
    match call {
        CallHeader::Take { .. } | CallHeader::NamedFree { .. } => 4,
        CallHeader::Free { .. } | CallHeader::NamedTake { .. } => 6,
        CallHeader::Drop { .. } => 3 + 4 * count as usize,
    }
}
