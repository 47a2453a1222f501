// The line of a setup and of a stop, written into a lent buffer, as far as they reach.
#![tactic(auto)]

ghost use Rattle.std.specs.Prelude.{◌≡◌};
ghost use Rattle.text_writer.specs.Written.{written};
ghost use Rattle.line_rules.specs.Lines.{setup_line, stop_line};

use heap_rules::Setup;
use line_fields::{put_field, put_last_field};
use text_writer::Text;

// The line of an accepted setup.
#[tactic(auto, using(text_writer::proofs::WriteLaws::one_after_another), unfolding(line_rules::specs::Lines::setup_line))]
pub fn setup_line(text: &mut Text, u: Setup)
    ensures { text.new ≡ written text.old (setup_line u) }
{
    put_field(text, b"setup ", u.processors);
    put_field(text, b" ", u.superblocks);
    put_field(text, b" ", u.spare);
    put_field(text, b" ", u.p);
    put_last_field(text, b" ", u.q);
}

// The last line of a record that stops.
#[tactic(auto, using(text_writer::proofs::WriteLaws::one_after_another), unfolding(line_rules::specs::Lines::stop_line))]
pub fn stop_line(text: &mut Text, number: u8, offset: u32)
    ensures { text.new ≡ written text.old (stop_line number offset) }
{
    put_field(text, b"stopped ", number);
    put_last_field(text, b" at ", offset);
}
