// A text that is written into a lent output, part by part.
ghost use Rattle.std.specs.Prelude.{◌≡◌, [], ◌∷◌};
ghost use Rattle.model.specs.Transcript.{decimal};
ghost use Rattle.decimal_text.specs.Appended.{HasRoom, Appended};

use crate::decimal::{put_digits, width};

// An output, and the position at which the text goes on.
#[derive(Drop)]
pub struct Text<'a> {
    out: &'a mut [u8],
    at: usize,
}

impl<'a> Text<'a> {
    // A text that goes on at a position of an output.
    pub fn new(out: &'a mut [u8], at: usize) -> Text<'a>
        ensures same_reference { result.out.ghost_name ≡ out.entry.ghost_name }
        ensures bytes { result.out.now ≡ out.old }
        ensures position { result.at ≡ at }
    {
        Text { out, at }
    }

    // The position after what was written.
    pub fn end(&self) -> usize
        ensures { result ≡ self.now.at }
    {
        self.at
    }

    // Appends bytes.
    pub fn bytes(&mut self, bytes: &[u8])
        requires { HasRoom self.old bytes.now }
        ensures { Appended self.old bytes.now self.new }
    {
        let end = self.at + bytes.len();
        self.out[self.at..end].copy_from_slice(bytes);
        self.at = end;
    }

    // Appends one byte.
    pub fn byte(&mut self, byte: u8)
        requires { HasRoom self.old (byte ∷ []) }
        ensures { Appended self.old (byte ∷ []) self.new }
    {
        self.out[self.at] = byte;
        self.at += 1;
    }

    // Appends a number in decimal. Many have one digit, and these need no field.
    #[tactic(auto, using(crate::proofs::Appending::appending, crate::proofs::LastDigits::decimal_last, crate::proofs::DecimalLaws::decimal_small))]
    pub fn decimal(&mut self, n: u64)
        requires { HasRoom self.old (decimal n) }
        ensures { Appended self.old (decimal n) self.new }
    {
        if n < 10 {
            self.byte(b'0' + n as u8);
            return;
        }
        let end = self.at + width(n);
        put_digits(&mut self.out[self.at..end], n);
        self.at = end;
    }
}
