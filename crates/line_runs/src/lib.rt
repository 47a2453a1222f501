// The lines of the long blocks' runs at the end of a record, written into a lent buffer, as far as they reach.
#![tactic(auto)]

ghost use Rattle.std.specs.Prelude.{◌≡◌};
ghost use Rattle.heap_rules.specs.Table.{table_length};
ghost use Rattle.text_writer.specs.Written.{written};
ghost use Rattle.line_rules.specs.Lines.{run_line, run_lines};

use heap_rules::State;
use heap_tests::starts_run;
use line_fields::{put_field, put_last_field};
use text_writer::Text;

// The line of a run, with its first superblock and how many it has.
fn run_line(text: &mut Text, first: u8, superblocks: u8)
    ensures { text.new ≡ written text.old (run_line first superblocks) }
{
    put_field(text, b"run ", first);
    put_last_field(text, b" superblocks ", superblocks);
}

// The lines of all runs, by first superblock.
pub fn run_lines(text: &mut Text, s: State)
    ensures { text.new ≡ written text.old (run_lines table_length s) }
{
    text.put_nothing();
    for (k, b) in s.table.iter().enumerate() {
        if starts_run(*b) {
            run_line(text, k as u8, b.run);
        }
    }
}
