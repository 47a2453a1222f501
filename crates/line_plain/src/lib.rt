// The lines of a take, a free and a drop, written into a lent buffer, as far as they reach.
#![tactic(auto)]

ghost use Rattle.std.specs.Prelude.{◌≡◌};
ghost use Rattle.text_writer.specs.Written.{written};
ghost use Rattle.line_rules.specs.Lines.{take_line, free_line, drop_line};

use call_rules::Outcome;
use line_fields::put_field;
use line_results::put_result_end;
use text_writer::Text;

// The line of a take.
#[tactic(auto, using(text_writer::proofs::WriteLaws::one_after_another), unfolding(line_rules::specs::Lines::take_line))]
pub fn take_line(text: &mut Text, processor: u8, size: u16, outcome: Outcome)
    ensures { text.new ≡ written text.old (take_line processor size outcome) }
{
    put_field(text, b"take ", processor);
    put_field(text, b" ", size);
    put_result_end(text, outcome);
}

// The line of a free.
#[tactic(auto, using(text_writer::proofs::WriteLaws::one_after_another), unfolding(line_rules::specs::Lines::free_line))]
pub fn free_line(text: &mut Text, processor: u8, address: u32, outcome: Outcome)
    ensures { text.new ≡ written text.old (free_line processor address outcome) }
{
    put_field(text, b"free ", processor);
    put_field(text, b" ", address);
    put_result_end(text, outcome);
}

// The line of a drop.
#[tactic(auto, using(text_writer::proofs::WriteLaws::one_after_another), unfolding(line_rules::specs::Lines::drop_line))]
pub fn drop_line(text: &mut Text, processor: u8, count: u8, outcome: Outcome)
    ensures { text.new ≡ written text.old (drop_line processor count outcome) }
{
    put_field(text, b"drop ", processor);
    put_field(text, b" count ", count);
    put_result_end(text, outcome);
}
