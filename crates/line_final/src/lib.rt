// The lines after the last command of a record, written into a lent buffer, as far as they reach.
#![tactic(auto)]

ghost use Rattle.std.specs.Prelude.{◌≡◌, ◌≤◌, ◌<◌};
ghost use Rattle.class_rules.specs.Classes.{class_count};
ghost use Rattle.heap_rules.specs.Totals.{most_processors, heap_count, TotalsKept};
ghost use Rattle.text_writer.specs.Written.{written};
ghost use Rattle.line_rules.specs.Lines.{class_lines, heap_lines, final_lines, closing_lines};

use class_rules::CLASSES;
use heap_rules::State;
use line_heap::heap_line_if;
use line_runs::run_lines;
use text_writer::Text;

// The lines of a heap, classes rising.
#[tactic(auto, using(crate::proofs::FinalLinesLaws::each_class))]
fn class_lines(text: &mut Text, heap: u8, s: State)
    requires { (heap < heap_count) × TotalsKept s }
    ensures { text.new ≡ written text.old (class_lines heap class_count s) }
{
    text.put_nothing();
    for class in 0..CLASSES {
        heap_line_if(text, heap, class, s);
    }
}

// The lines of the heaps below a number, heaps rising.
#[tactic(auto, using(crate::proofs::FinalLinesLaws::each_heap))]
fn heap_lines(text: &mut Text, heaps: u8, s: State)
    requires { (heaps ≤ heap_count) × TotalsKept s }
    ensures { text.new ≡ written text.old (heap_lines heaps s) }
{
    text.put_nothing();
    for heap in 0..heaps {
        class_lines(text, heap, s);
    }
}

// The lines at the end of a record that does not stop.
#[tactic(auto, using(text_writer::proofs::WriteLaws::one_after_another), unfolding(line_rules::specs::Lines::final_lines))]
fn final_lines(text: &mut Text, s: State)
    requires { TotalsKept s × (s.setup.processors ≤ most_processors) }
    ensures { text.new ≡ written text.old (final_lines s) }
{
    heap_lines(text, s.setup.processors + 1, s);
    run_lines(text, s);
    text.put_text(b"end\n");
}

// The lines after the last command of a record: none after a stop line.
#[tactic(auto, unfolding(line_rules::specs::Lines::closing_lines))]
pub fn closing_lines(text: &mut Text, stopped: bool, s: State)
    requires { TotalsKept s × (s.setup.processors ≤ most_processors) }
    ensures { text.new ≡ written text.old (closing_lines stopped s) }
{
    if stopped {
        text.put_nothing();
    } else {
        final_lines(text, s);
    }
}
