// The lines of the order places that a call changed, written into a lent buffer, as far as they reach.
#![tactic(auto)]

ghost use Rattle.std.specs.Prelude.{◌≡◌};
ghost use Rattle.text_writer.specs.Written.{written};
ghost use Rattle.answer_rules.specs.AnswerLines.{place_line_if, place_lines};

use line_fields::{put_field, put_last_field};
use text_writer::Text;

// The line of a place whose number changed, with its new number.
#[tactic(auto, unfolding(answer_rules::specs::AnswerLines::place_line_if))]
fn place_line_if(text: &mut Text, i: usize, old: u16, new: u16)
    ensures { text.new ≡ written text.old (place_line_if i old new) }
{
    if old == new {
        text.put_nothing();
    } else {
        put_field(text, b"place ", i as u64);
        put_last_field(text, b" ", new);
    }
}

// The lines of the places before and after a call, rising, as many as there are of both.
#[tactic(auto, using(crate::proofs::PlaceLinesLaws::each_place), unfolding(answer_rules::specs::AnswerLines::place_lines))]
pub fn place_lines(text: &mut Text, before: &[u16], after: &[u16])
    ensures { text.new ≡ written text.old (place_lines before.now after.now) }
{
    text.put_nothing();
    for (i, (&old, &new)) in before.iter().zip(after).enumerate() {
        place_line_if(text, i, old, new);
    }
}
