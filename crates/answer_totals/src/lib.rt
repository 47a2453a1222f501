// The lines of the totals that a call leaves, written into a lent buffer, as far as they reach.
#![tactic(auto)]

ghost use Rattle.std.specs.Prelude.{◌≡◌};
ghost use Rattle.text_writer.specs.Written.{written};
ghost use Rattle.answer_rules.specs.AnswerLines.{total_line_if, total_lines};

use class_rules::CLASSES;
use heap_rules::Totals;
use line_fields::{put_field, put_last_field};
use text_writer::Text;

// The line of the totals at x, those of heap x / CLASSES and class x % CLASSES, where one of them is not 0.
#[tactic(auto, unfolding(answer_rules::specs::AnswerLines::total_line_if))]
fn total_line_if(text: &mut Text, x: u8, superblocks: u8, live: u16)
    ensures { text.new ≡ written text.old (total_line_if x superblocks live) }
{
    if superblocks == 0 && live == 0 {
        text.put_nothing();
    } else {
        put_field(text, b"total heap ", x / CLASSES);
        put_field(text, b" class ", x % CLASSES);
        put_field(text, b" superblocks ", superblocks);
        put_last_field(text, b" live ", live);
    }
}

// The lines of all totals, heaps and then classes rising.
#[tactic(auto, using(crate::proofs::TotalLinesLaws::each_total), unfolding(answer_rules::specs::AnswerLines::total_lines))]
pub fn total_lines(text: &mut Text, totals: Totals)
    ensures { text.new ≡ written text.old (total_lines totals) }
{
    text.put_nothing();
    for (x, (&superblocks, &live)) in totals.superblocks.iter().zip(&totals.live).enumerate() {
        total_line_if(text, x as u8, superblocks, live);
    }
}
