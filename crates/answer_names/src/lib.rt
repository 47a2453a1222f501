// The lines of the names that a call leaves held, written into a lent buffer, as far as they reach.
#![tactic(auto)]

ghost use Rattle.std.specs.Prelude.{◌≡◌};
ghost use Rattle.text_writer.specs.Written.{written};
ghost use Rattle.answer_rules.specs.AnswerLines.{name_line_if, name_lines};

use line_fields::{put_field, put_last_field};
use names_rules::{NAME_COUNT, NOT_HELD, NUMBERS_EACH};
use text_writer::Text;

// The line of a name that is held, with the superblock and the block of its number.
#[tactic(auto, unfolding(answer_rules::specs::AnswerLines::name_line_if))]
fn name_line_if(text: &mut Text, m: u16, number: u16)
    ensures { text.new ≡ written text.old (name_line_if m number) }
{
    if number == NOT_HELD {
        text.put_nothing();
    } else {
        put_field(text, b"name ", m);
        put_field(text, b" superblock ", number / NUMBERS_EACH);
        put_last_field(text, b" block ", number % NUMBERS_EACH);
    }
}

// The lines of all names, rising.
#[tactic(auto, using(crate::proofs::NameLinesLaws::each_name), unfolding(answer_rules::specs::AnswerLines::name_lines))]
pub fn name_lines(text: &mut Text, names: [u16; NAME_COUNT])
    ensures { text.new ≡ written text.old (name_lines names) }
{
    text.put_nothing();
    for (m, &number) in names.iter().enumerate() {
        name_line_if(text, m as u16, number);
    }
}
