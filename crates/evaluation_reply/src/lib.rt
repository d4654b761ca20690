// The evaluator's reply: three numbers in the build host's buffer, or one line of text.
#![tactic(auto)]

ghost use Rattle.std.specs.Prelude.{◌≡◌, length};
ghost use Rattle.evaluation.specs.Evaluation as specification;
ghost use Rattle.evaluation_reply.specs.Evaluation.{evaluation_record};

use reply::Text;
use tableau::Reason;

// The refusal number, the file (1 checker, 2 heap, 0 without a refusal) and the line.
#[derive(Clone, Copy)]
pub struct Evaluation {
    pub number: usize,
    pub file: usize,
    pub line: usize,
}

// The file is any number here, as in the specification: an enum would take fewer.
pub fn refused(reason: Reason, file: usize, line: usize) -> Evaluation
    ensures { evaluation_record result ≡ specification.refusal reason file line }
{
    Evaluation {
        number: reply::reason_number(reason),
        file,
        line,
    }
}

// The line of the first false A line, 0 where all hold.
pub fn no_refusal(line: usize) -> Evaluation
    ensures { evaluation_record result ≡ specification.no_refusal line }
{
    Evaluation {
        number: 0,
        file: 0,
        line,
    }
}

impl Evaluation {
    // The reply buffer of a build host: three numbers of four bytes.
    pub const BUFFER_BYTES: usize = 12;

    #[tactic(auto, unfolding(evaluation::specs::Evaluation::evaluation_bytes))]
    pub fn write_numbers(self, buffer: &mut [u8])
        requires { length buffer.old ≡ specification.evaluation_length }
        ensures { buffer.new ≡ specification.evaluation_bytes (evaluation_record self) }
    {
        reply::put_numbers(buffer, &[self.number, self.file, self.line]);
    }

    #[tactic(auto, unfolding(evaluation::specs::Evaluation::evaluation_line))]
    pub fn line(self) -> Text
        ensures { result ≡ specification.evaluation_line (evaluation_record self) }
    {
        let mut text = Text::new();
        text.put_decimal(self.number);
        text.put_fields(&[self.file, self.line]);
        text
    }
}
