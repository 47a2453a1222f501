// Text and numbers written into a lent buffer, as far as they reach.
#![tactic(auto)]

ghost use Rattle.std.specs.Prelude.{◌≡◌, [], ◌∷◌, ℕ, List};
ghost use Rattle.text_rules.specs.Text.{decimal, digits};
ghost use Rattle.text_writer.specs.Written.{written};

// A lent buffer, and where the next text goes. What does not fit is left out.
#[derive(Drop)]
pub struct Text<'a> {
    pub buffer: &'a mut [u8],
    pub end: usize,
}

impl<'a> Text<'a> {
    // A buffer whose first text is still to come.
    pub fn new(buffer: &'a mut [u8]) -> Text<'a>
        ensures { result ≡ record { buffer = buffer.entry; end = 0 } }
    {
        Text { buffer, end: 0 }
    }

    // As much of the text as there is room for. A text of one byte is put without a call to copy it.
    #[tactic(auto, using(crate::proofs::WriteLaws::written_copied, crate::proofs::WriteLaws::written_only_byte))]
    pub fn put_text(&mut self, text: &[u8])
        ensures { self.new ≡ written self.old text.now }
    {
        if text.len() == 1 {
            return self.put_byte(text[0]);
        }
        let start = self.end.min(self.buffer.len());
        let n = text.len().min(self.buffer.len() - start);
        self.buffer[start..start + n].copy_from_slice(&text[..n]);
        self.end = start + n;
    }

    // One byte, where there is room for it.
    fn put_byte(&mut self, byte: u8)
        ensures { self.new ≡ written self.old (byte ∷ []) }
    {
        if self.end < self.buffer.len() {
            self.buffer[self.end] = byte;
            self.end += 1;
        } else {
            self.end = self.buffer.len();
        }
    }

    // No text: the place, or the buffer's end where the place lies past it.
    pub fn put_nothing(&mut self)
        ensures { self.new ≡ written self.old [] }
    {
        self.put_text(b"");
    }
}

// A number that is written in decimal, with no leading 0.
pub trait Decimal: Copy {
    ghost in_decimal: { Self → List ℕ };

    fn put(self, text: &mut Text)
        ensures { text.new ≡ written text.old (in_decimal self) };
}

impl Decimal for u8 {
    ghost in_decimal = { decimal };

    fn put(self, text: &mut Text) {
        u16::from(self).put(text);
    }
}

impl Decimal for u16 {
    ghost in_decimal = { decimal };

    fn put(self, text: &mut Text) {
        u32::from(self).put(text);
    }
}

impl Decimal for u32 {
    ghost in_decimal = { decimal };

    #[tactic(auto, using(crate::proofs::DigitCounts::digits_20_of_u32))]
    fn put(self, text: &mut Text) {
        u64::from(self).put(text);
    }
}

impl Decimal for u64 {
    ghost in_decimal = { digits 20 };

    // The digits before the last one come first.
    #[tactic(auto, using(crate::proofs::DigitCounts::written_one_digit, crate::proofs::DigitCounts::written_last_digit))]
    fn put(self, text: &mut Text) {
        if 10 <= self {
            (self / 10).put(text);
        }
        text.put_byte(b'0' + (self % 10) as u8);
    }
}
