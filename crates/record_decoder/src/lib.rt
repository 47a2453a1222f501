// Reads the commands of a record.
#![tactic(auto)]

ghost use Rattle.std.specs.Prelude.{◌≡◌, ◌*◌, ◌≤◌, ◌<◌, length};
ghost use Rattle.refusal_rules.specs.RefusalNumbers.{number_of};
ghost use Rattle.record_rules.specs.declared.Command.TheVariants.{Call, Refused};
ghost use Rattle.record_rules.specs.Record.{
  longest_record,
  setup_at,
  take_at,
  free_at,
  named_take_at,
  named_free_at,
  drop_at,
  command_by_first_byte,
  command_at,
  HasNumbersOf,
};
ghost use Rattle.record_decoder.specs.Decoded.{command_of};

use call_header::CallHeader;
use record_rules::{Command, LONGEST_RECORD};
use refusal_rules::Refusal;

// The command at a position of a record. There is one for any record and position: past the record's end, a refusal.
pub fn command_at(bytes: &[u8], at: usize) -> Command
    ensures value { result ≡ command_at bytes.now at }
    ensures numbers { HasNumbersOf result (command_at bytes.now at) }
{
    if LONGEST_RECORD < bytes.len() {
        return refused(Refusal::RecordTooLong, 0);
    }
    if at < bytes.len() {
        return match command_by_first_byte(bytes, at) {
            Ok(command) => command,
            Err(refusal) => refused(refusal, at),
        };
    }
    if at == 0 {
        return refused(Refusal::CommandMisplaced, 0);
    }
    refused(Refusal::CommandTruncated, bytes.len())
}

// The command at a position before the record's end, by its first byte.
fn command_by_first_byte(bytes: &[u8], at: usize) -> Result<Command, Refusal>
    requires { (length bytes.now ≤ longest_record) × (at < length bytes.now) }
    ensures { command_of result at ≡ command_by_first_byte bytes.now at }
{
    match bytes[at] {
        0 => setup_at(bytes, at),
        6.. => Err(Refusal::UnknownCommand),
        _ if at == 0 => Err(Refusal::CommandMisplaced),
        1 => take_at(bytes, at),
        2 => free_at(bytes, at),
        3 => named_take_at(bytes, at),
        4 => named_free_at(bytes, at),
        5 => drop_at(bytes, at),
    }
}

fn setup_at(bytes: &[u8], at: usize) -> Result<Command, Refusal>
    ensures { command_of result at ≡ setup_at bytes.now at }
{
    if at != 0 {
        return Err(Refusal::CommandMisplaced);
    }
    let &[_, processors, superblocks, spare, p, q, ..] = bytes else {
        return Err(Refusal::CommandTruncated);
    };
    Ok(Command::Setup {
        processors,
        superblocks,
        spare,
        p,
        q,
    })
}

// ---- the calls, none of which is first

fn take_at(bytes: &[u8], at: usize) -> Result<Command, Refusal>
    requires { (0 < at) × (at < length bytes.now) }
    ensures { command_of result at ≡ take_at bytes.now at }
{
    let &[_, processor, s0, s1, ..] = &bytes[at..] else {
        return Err(Refusal::CommandTruncated);
    };
    let size = u16::from_le_bytes([s0, s1]);
    Ok(call(CallHeader::Take { processor, size }))
}

fn free_at(bytes: &[u8], at: usize) -> Result<Command, Refusal>
    requires { (0 < at) × (at < length bytes.now) }
    ensures { command_of result at ≡ free_at bytes.now at }
{
    let &[_, processor, a0, a1, a2, a3, ..] = &bytes[at..] else {
        return Err(Refusal::CommandTruncated);
    };
    let address = u32::from_le_bytes([a0, a1, a2, a3]);
    Ok(call(CallHeader::Free { processor, address }))
}

fn named_take_at(bytes: &[u8], at: usize) -> Result<Command, Refusal>
    requires { (0 < at) × (at < length bytes.now) }
    ensures { command_of result at ≡ named_take_at bytes.now at }
{
    let &[_, processor, n0, n1, s0, s1, ..] = &bytes[at..] else {
        return Err(Refusal::CommandTruncated);
    };
    let name = u16::from_le_bytes([n0, n1]);
    let size = u16::from_le_bytes([s0, s1]);
    Ok(call(CallHeader::NamedTake {
        processor,
        name,
        size,
    }))
}

fn named_free_at(bytes: &[u8], at: usize) -> Result<Command, Refusal>
    requires { (0 < at) × (at < length bytes.now) }
    ensures { command_of result at ≡ named_free_at bytes.now at }
{
    let &[_, processor, n0, n1, ..] = &bytes[at..] else {
        return Err(Refusal::CommandTruncated);
    };
    let name = u16::from_le_bytes([n0, n1]);
    Ok(call(CallHeader::NamedFree { processor, name }))
}

fn drop_at(bytes: &[u8], at: usize) -> Result<Command, Refusal>
    requires { (length bytes.now ≤ longest_record) × (0 < at) × (at < length bytes.now) }
    ensures { command_of result at ≡ drop_at bytes.now at }
{
    let &[_, processor, count, ref addresses @ ..] = &bytes[at..] else {
        return Err(Refusal::CommandTruncated);
    };
    if addresses.len() < 4 * count as usize {
        return Err(Refusal::CommandTruncated);
    }
    Ok(Command::Call {
        call: CallHeader::Drop { processor },
        count,
        first: at as u32 + 3,
    })
}

// A call that lends no addresses.
fn call(call: CallHeader) -> Command
    ensures { result ≡ Call call 0 0 }
{
    Command::Call {
        call,
        count: 0,
        first: 0,
    }
}

// A refusal at an offset of the record.
fn refused(refusal: Refusal, offset: usize) -> Command
    requires { offset ≤ longest_record }
    ensures { result ≡ Refused (number_of refusal) offset }
{
    Command::Refused {
        number: refusal.number(),
        offset: offset as u32,
    }
}
