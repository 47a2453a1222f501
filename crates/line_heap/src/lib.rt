// The line of a heap and class at the end of a record, written into a lent buffer, as far as it reaches.
#![tactic(auto)]

ghost use Rattle.std.specs.Prelude.{◌≡◌, ◌<◌};
ghost use Rattle.class_rules.specs.Classes.{class_count};
ghost use Rattle.heap_rules.specs.Totals.{heap_count, TotalsKept};
ghost use Rattle.text_writer.specs.Written.{written};
ghost use Rattle.line_rules.specs.Lines.{heap_line, heap_line_if};

use class_rules::CLASS_COUNT;
use heap_rules::State;
use line_fields::{put_field, put_last_field};
use text_writer::Text;

// The line of a heap and class, with the number of its superblocks and of their live blocks.
fn heap_line(text: &mut Text, heap: u8, class: u8, superblocks: u8, live: u16)
    ensures { text.new ≡ written text.old (heap_line heap class superblocks live) }
{
    put_field(text, b"heap ", heap);
    put_field(text, b" class ", class);
    put_field(text, b" superblocks ", superblocks);
    put_last_field(text, b" live ", live);
}

// The line of a heap and class, where it has a superblock.
pub fn heap_line_if(text: &mut Text, heap: u8, class: u8, s: State)
    requires { (heap < heap_count) × (class < class_count) × TotalsKept s }
    ensures { text.new ≡ written text.old (heap_line_if heap class s) }
{
    let x = usize::from(heap) * CLASS_COUNT + usize::from(class);
    let superblocks = s.totals.superblocks[x];
    if superblocks == 0 {
        text.put_nothing();
    } else {
        heap_line(text, heap, class, superblocks, s.totals.live[x]);
    }
}
