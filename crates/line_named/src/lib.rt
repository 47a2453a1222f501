// The lines of a take and a free by name, written into a lent buffer, as far as they reach.
#![tactic(auto)]

ghost use Rattle.std.specs.Prelude.{◌≡◌};
ghost use Rattle.text_writer.specs.Written.{written};
ghost use Rattle.line_rules.specs.Lines.{processor_and_name, named_take_line, named_free_line};

use call_rules::Outcome;
use line_fields::put_field;
use line_results::put_result_end;
use text_writer::Text;

// How the line of a call by name begins.
#[tactic(auto, using(text_writer::proofs::WriteLaws::one_after_another))]
fn put_processor_and_name(text: &mut Text, label: &[u8], processor: u8, name: u16)
    ensures { text.new ≡ written text.old (processor_and_name label.now processor name) }
{
    put_field(text, label, processor);
    put_field(text, b" name ", name);
}

// The line of a take by name.
#[tactic(auto, using(text_writer::proofs::WriteLaws::one_after_another), unfolding(line_rules::specs::Lines::named_take_line))]
pub fn named_take_line(text: &mut Text, processor: u8, name: u16, size: u16, outcome: Outcome)
    ensures { text.new ≡ written text.old (named_take_line processor name size outcome) }
{
    put_processor_and_name(text, b"take ", processor, name);
    put_field(text, b" ", size);
    put_result_end(text, outcome);
}

// The line of a free by name.
#[tactic(auto, using(text_writer::proofs::WriteLaws::one_after_another), unfolding(line_rules::specs::Lines::named_free_line))]
pub fn named_free_line(text: &mut Text, processor: u8, name: u16, outcome: Outcome)
    ensures { text.new ≡ written text.old (named_free_line processor name outcome) }
{
    put_processor_and_name(text, b"free ", processor, name);
    put_result_end(text, outcome);
}
