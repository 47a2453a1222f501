// The lines of the superblocks that a call leaves, written into a lent buffer, as far as they reach.
#![tactic(auto)]

ghost use Rattle.std.specs.Prelude.{◌≡◌, take};
ghost use Rattle.text_writer.specs.Written.{written};
ghost use Rattle.answer_rules.specs.AnswerLines.{
  is_as_new,
  marks_fields,
  superblock_line,
  superblock_line_if,
  superblock_lines,
};

use heap_rules::Superblock;
use heap_tests::is_unused;
use line_fields::{put_field, put_last_field};
use row_rules::RECORD_COUNT;
use text_writer::Text;

// The four numbers of live marks.
#[tactic(auto, using(crate::proofs::SuperblockLinesLaws::each_number), unfolding(answer_rules::specs::AnswerLines::wide_decimal))]
fn put_marks(text: &mut Text, live: [u64; 4])
    ensures { text.new ≡ written text.old (marks_fields live) }
{
    text.put_text(b" live");
    for number in live {
        put_field(text, b" ", number);
    }
}

// The line of a superblock.
fn superblock_line(text: &mut Text, k: u8, b: Superblock)
    ensures { text.new ≡ written text.old (superblock_line k b) }
{
    put_field(text, b"superblock ", k);
    put_field(text, b" owner ", b.owner);
    put_field(text, b" class ", b.class);
    put_marks(text, b.live);
    put_field(text, b" rank ", b.rank);
    put_last_field(text, b" run ", b.run);
}

// Unused, unranked and first of no run.
#[tactic(auto, unfolding(answer_rules::specs::AnswerLines::is_as_new))]
fn is_as_new(b: Superblock) -> bool
    ensures { result ≡ is_as_new b }
{
    b.rank == 0 && b.run == 0 && is_unused(b)
}

// The line of a superblock that is not as a new setup has it.
#[tactic(auto, unfolding(answer_rules::specs::AnswerLines::superblock_line_if))]
fn superblock_line_if(text: &mut Text, k: u8, b: Superblock)
    ensures { text.new ≡ written text.old (superblock_line_if k b) }
{
    if is_as_new(b) {
        text.put_nothing();
    } else {
        superblock_line(text, k, b);
    }
}

// The lines of the first n records, or of all 65 where n is above.
// An array and a count, and no slice: a slice could have more records than k has numbers, which would need a `requires`.
#[tactic(auto, using(crate::proofs::SuperblockLinesLaws::each_record), unfolding(answer_rules::specs::AnswerLines::superblock_lines))]
pub fn superblock_lines(text: &mut Text, n: usize, records: [Superblock; RECORD_COUNT])
    ensures { text.new ≡ written text.old (superblock_lines (take n records)) }
{
    text.put_nothing();
    for (k, &b) in records[..n.min(RECORD_COUNT)].iter().enumerate() {
        superblock_line_if(text, k as u8, b);
    }
}
