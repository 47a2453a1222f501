// The fields of the key's lines, written into a lent buffer, as far as they reach.
#![tactic(auto)]

ghost use Rattle.std.specs.Prelude.{◌≡◌, ◌++◌};
ghost use Rattle.text_rules.specs.Text.{letters};
ghost use Rattle.text_writer.specs.Written.{written};

use text_writer::{Decimal, Text};

// A word and a number after it.
#[tactic(auto, using(text_writer::proofs::WriteLaws::one_after_another))]
pub fn put_field<N: Decimal>(text: &mut Text, label: &[u8], n: N)
    ensures { text.new ≡ written text.old (label.now ++ N.in_decimal n) }
{
    text.put_text(label);
    n.put(text);
}

// A word, a number and the end of the line.
#[tactic(auto, using(text_writer::proofs::WriteLaws::one_after_another))]
pub fn put_last_field<N: Decimal>(text: &mut Text, label: &[u8], n: N)
    ensures { text.new ≡ written text.old (label.now ++ N.in_decimal n ++ letters "\n") }
{
    put_field(text, label, n);
    text.put_text(b"\n");
}
