// Numbers as a build host reads them: four bytes each, low byte first.
ghost use Rattle.std.specs.Prelude.{◌≡◌, ◌*◌, length};
ghost use Rattle.tableau.specs.Reply.{number_bytes, reply_bytes, buffer_length};
ghost use Rattle.reply.specs.Verdict.{reply_record};

use crate::Reply;

// Every number, one behind the other, in a buffer that they fill.
pub fn put_numbers(buffer: &mut [u8], numbers: &[usize])
    requires { length buffer.old ≡ 4 * length numbers.now }
    ensures { buffer.new ≡ number_bytes numbers.now }
{
    for (i, number) in numbers.iter().enumerate() {
        buffer[4 * i..4 * i + 4].copy_from_slice(&number.to_le_bytes()[..4]);
    }
}

impl Reply {
    pub fn write_numbers(self, buffer: &mut [u8])
        requires { length buffer.old ≡ buffer_length }
        ensures { buffer.new ≡ reply_bytes (reply_record self) }
    {
        put_numbers(buffer, &self.numbers());
    }
}
