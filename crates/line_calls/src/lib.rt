// The line of any call, written into a lent buffer, as far as it reaches.
#![tactic(auto)]

ghost use Rattle.std.specs.Prelude.{◌≡◌};
ghost use Rattle.text_writer.specs.Written.{written};
ghost use Rattle.line_rules.specs.Lines.{call_line};

use call_header::CallHeader;
use call_rules::Outcome;
use line_named::{named_free_line, named_take_line};
use line_plain::{drop_line, free_line, take_line};
use text_writer::Text;

// The line of a call with this header and so many addresses beside it, which only a drop prints.
#[tactic(auto, unfolding(line_rules::specs::Lines::call_line))]
pub fn call_line(text: &mut Text, call: CallHeader, count: u8, outcome: Outcome)
    ensures { text.new ≡ written text.old (call_line call count outcome) }
{
    match call {
        CallHeader::Take { processor, size } => take_line(text, processor, size, outcome),
        CallHeader::Free { processor, address } => free_line(text, processor, address, outcome),
        CallHeader::NamedTake {
            processor,
            name,
            size,
        } => named_take_line(text, processor, name, size, outcome),
        CallHeader::NamedFree { processor, name } => {
            named_free_line(text, processor, name, outcome)
        }
        CallHeader::Drop { processor } => drop_line(text, processor, count, outcome),
    }
}
