// The result of a call, the last field of its line, written into a lent buffer, as far as it reaches.
#![tactic(auto)]

ghost use Rattle.std.specs.Prelude.{◌≡◌, ◌++◌};
ghost use Rattle.text_rules.specs.Text.{letters};
ghost use Rattle.text_writer.specs.Written.{written};
ghost use Rattle.line_rules.specs.Lines.{result as result_text};

use call_rules::Outcome;
use line_fields::put_field;
use text_writer::Text;

// The address given, the moves or the refusal, and the end of the line.
#[tactic(auto, using(text_writer::proofs::WriteLaws::one_after_another), unfolding(line_rules::specs::Lines::result))]
pub fn put_result_end(text: &mut Text, outcome: Outcome)
    ensures { text.new ≡ written text.old (result_text outcome ++ letters "\n") }
{
    match outcome {
        Outcome::Ready => {}
        Outcome::Address(address) => put_field(text, b" at ", address),
        Outcome::Moves(moves) => put_field(text, b" moved ", moves),
        Outcome::Refused(number) => put_field(text, b" refused ", number),
    }
    text.put_text(b"\n");
}
