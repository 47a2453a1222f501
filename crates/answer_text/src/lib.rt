// The text of a call's answer, written into a lent buffer, as far as it reaches (docs/FORMATS.md, "One call").
#![tactic(auto)]

ghost use Rattle.std.specs.Prelude.{◌≡◌, take};
ghost use Rattle.text_rules.specs.Text.{pasted};
ghost use Rattle.text_writer.specs.Written.{written};
ghost use Rattle.row_rules.specs.Row.{state_of};
ghost use Rattle.answer_rules.specs.AnswerLines.{outcome_line, answer_text, bad_input_text};

use answer_names::name_lines;
use answer_places::place_lines;
use answer_superblocks::superblock_lines;
use answer_totals::total_lines;
use call_rules::{Answer, Outcome};
use form_row::records_of;
use heap_rules::TABLE_LENGTH;
use line_fields::put_last_field;
use line_setup::setup_line;
use row_by_value::control_of;
use row_rules::{RecordsAnswer, RowAnswer};
use text_writer::Text;

// The line of an outcome.
#[tactic(auto, unfolding(answer_rules::specs::AnswerLines::outcome_line))]
fn outcome_line(text: &mut Text, outcome: Outcome)
    ensures { text.new ≡ written text.old (outcome_line outcome) }
{
    match outcome {
        Outcome::Ready => text.put_text(b"ready\n"),
        Outcome::Address(a) => put_last_field(text, b"at ", a),
        Outcome::Moves(m) => put_last_field(text, b"moved ", m),
        Outcome::Refused(r) => put_last_field(text, b"refused ", r),
    }
}

// The text of a call on a lent row, of the first n records, put at the front of the buffer; where it ends. The places are those before and after
// the call. The buffer, and the count beside the records, stay parameters: the program `call` has this promise, `take n a.records`, with any n.
pub fn row_answer_text(
    out: &mut [u8],
    n: usize,
    a: RecordsAnswer,
    before: &[u16],
    after: &[u16],
) -> usize
    ensures { record { end = result; buffer = out.new } ≡ pasted out.old 0
        (answer_text a.answer.outcome (state_of a.answer.control (take n a.records)) before.now after.now) }
{
    let mut text = Text::new(out);
    outcome_line(&mut text, a.answer.outcome);
    setup_line(&mut text, a.answer.control.setup);
    superblock_lines(&mut text, n, a.records);
    name_lines(&mut text, a.answer.control.names);
    total_lines(&mut text, a.answer.control.totals);
    place_lines(&mut text, before, after);
    text.put_text(b"end\n");
    text.end
}

// The text of a call on a state.
#[tactic(auto, using(crate::proofs::AnswerTextLaws::state_as_row))]
pub fn state_answer_text(out: &mut [u8], a: Answer, before: &[u16], after: &[u16]) -> usize
    ensures { record { end = result; buffer = out.new } ≡ pasted out.old 0
        (answer_text a.outcome a.state before.now after.now) }
{
    let on_row = RecordsAnswer {
        records: records_of(a.state.table),
        answer: RowAnswer {
            outcome: a.outcome,
            control: control_of(a.state),
        },
    };
    row_answer_text(out, TABLE_LENGTH, on_row, before, after)
}

// The text of an input that is no call.
pub fn bad_input_text(out: &mut [u8]) -> usize
    ensures { record { end = result; buffer = out.new } ≡ pasted out.old 0 bad_input_text }
{
    let mut text = Text::new(out);
    text.put_text(b"bad input\n");
    text.end
}
