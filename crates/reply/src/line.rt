// The reply as one line of text.
ghost use Rattle.std.specs.Prelude.{List, [], ◌∷◌, ◌++◌, ◌≡◌, ℕ, ◌+◌, ◌*◌, ◌≤◌, ◌<◌, length, take};
ghost use Rattle.tableau.specs.File.{comma};
ghost use Rattle.tableau.specs.Reply.{decimal, comma_numbers, reply_line};
ghost use Rattle.reply.specs.Line.{line_bytes, number_digits, field_bytes};
ghost use Rattle.reply.specs.Verdict.{reply_record};

use crate::Reply;
use std::marker::Model;

// A 64-bit number has no more.
const DIGITS: usize = 20;

// A line of text: the first `len` of its bytes.
#[derive(Drop)]
pub struct Text {
    pub bytes: [u8; Reply::LINE_BYTES],
    pub len: usize,
}

impl Model for Text {
    ghost Value = { List ℕ };

    ghost view = { λ t. take t.len t.bytes };

    ghost invariant = { λ t. t.len ≤ line_bytes };
}

impl Text {
    pub fn new() -> Text
        ensures { result ≡ [] }
    {
        Text {
            bytes: [0; Reply::LINE_BYTES],
            len: 0,
        }
    }

    pub fn as_bytes(&self) -> &[u8]
        ensures { result.now ≡ self.now }
    {
        &self.bytes[..self.len]
    }

    pub fn put(&mut self, text: &[u8])
        requires { length self.old + length text.now ≤ line_bytes }
        ensures { self.new ≡ self.old ++ text.now }
    {
        let end = self.len + text.len();
        self.bytes[self.len..end].copy_from_slice(text);
        self.len = end;
    }

    // The digits are found from the last to the first: those from `pos + 1` on stand, and `rest` is
    // what they leave of the value.
    pub fn put_decimal(&mut self, value: usize)
        requires { length self.old + number_digits ≤ line_bytes }
        ensures upper_bound { length self.new ≤ length self.old + number_digits }
        ensures put { self.new ≡ self.old ++ decimal value }
    {
        let mut digits = [0; DIGITS];
        let mut pos = DIGITS - 1;
        let mut rest = value;
        while 10 <= rest {
            digits[pos] = b'0' + (rest % 10) as u8;
            rest /= 10;
            pos -= 1;
        }
        digits[pos] = b'0' + rest as u8;
        self.put(&digits[pos..]);
    }

    // A comma and a number.
    fn put_field(&mut self, value: usize)
        requires { length self.old + field_bytes ≤ line_bytes }
        ensures upper_bound { length self.new ≤ length self.old + field_bytes }
        ensures put { self.new ≡ self.old ++ comma ∷ decimal value }
    {
        self.put(b",");
        self.put_decimal(value);
    }

    // The fields behind the first one, and LF.
    pub fn put_fields(&mut self, values: &[usize])
        requires { length self.old + field_bytes * length values.now < line_bytes }
        ensures { self.new ≡ self.old ++ comma_numbers values.now }
    {
        for value in values {
            self.put_field(*value);
        }
        self.put(b"\n");
    }
}

impl Reply {
    pub fn line(self) -> Text
        ensures { result ≡ reply_line (reply_record self) }
    {
        let mut text = Text::new();
        if self.is_yes {
            text.put(b"yes");
        } else {
            text.put(b"no");
        }
        text.put_fields(&self.numbers());
        text
    }
}
