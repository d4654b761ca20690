// The reply: seven numbers in the build host's buffer, or one line of text. Both forms are made of
// parts for any numbers.
#![tactic(auto)]

mod buffer;
mod line;

ghost use Rattle.std.specs.Prelude.{◌≡◌};
ghost use Rattle.tableau.specs.Reply.{refusal_of, reason_number, reply_numbers, reply_of};
ghost use Rattle.reply.specs.Verdict.{verdict_of, reply_record};

pub use buffer::put_numbers;
pub use line::Text;
use tableau::{Reason, Refusal};

// The counts after a yes.
#[derive(Clone, Copy)]
pub struct Counts {
    pub terms: usize,
    pub assumptions: usize,
    pub steps: usize,
    pub closings: usize,
}

// What the lines of a file come to: a yes, or the first bad line.
pub type Verdict = Result<Counts, Refusal>;

// The numbers of a reply, and whether it is a yes.
#[derive(Clone, Copy)]
pub struct Reply {
    pub is_yes: bool,
    pub number: usize,
    pub line: usize,
    pub terms: usize,
    pub assumptions: usize,
    pub steps: usize,
    pub closings: usize,
    pub place: usize,
}

impl Reply {
    // The reply buffer of a build host: seven numbers of four bytes.
    pub const BUFFER_BYTES: usize = 28;

    // Room for the reply line, with some to spare: `yes`, seven commas with a number of up to 20
    // digits each, LF.
    pub const LINE_BYTES: usize = 160;

    // The numbers in the order in which both forms give them.
    fn numbers(self) -> [usize; 7]
        ensures { result ≡ reply_numbers (reply_record self) }
    {
        [
            self.number,
            self.line,
            self.terms,
            self.assumptions,
            self.steps,
            self.closings,
            self.place,
        ]
    }
}

// The refusal number of documents 01 and 02.
#[tactic(auto, unfolding(tableau::specs::Reply::refusal_of))]
pub fn reason_number(reason: Reason) -> usize
    ensures { result ≡ reason_number reason }
{
    match reason {
        Reason::TooLong => 1,
        Reason::BadShape => 2,
        Reason::LetterOrder => 3,
        Reason::UnknownWord => 4,
        Reason::TreeClosed => 5,
        Reason::UnusedField => 6,
        Reason::TooManyTerms => 7,
        Reason::NoSuchTerm => 8,
        Reason::WrongSort => 9,
        Reason::TermRepeated => 10,
        Reason::NoSuchPlace => 11,
        Reason::NeedNotMet => 12,
        Reason::NotFresh(_) => 13,
        Reason::TermNotMade => 14,
        Reason::BranchFull => 15,
        Reason::WaitingFull => 16,
        Reason::BranchOpen => 17,
        Reason::BufferLength => 18,
        Reason::BadFact => 19,
        Reason::NotAnOrder => 20,
        Reason::BadClause => 21,
    }
}

// The place of a reply with this reason: only where w is not fresh there is one.
#[tactic(auto, using(tableau::proofs::Refusals::reason_fits), unfolding(tableau::specs::Reply::refusal_of))]
fn reason_place(reason: Reason) -> usize
    ensures { result ≡ (refusal_of reason).place }
{
    let Reason::NotFresh(place) = reason else {
        return 0;
    };
    place.0
}

// After a yes the number, the line and the place are 0, after a no the four counts.
#[tactic(auto, unfolding(tableau::specs::Reply::reply_of))]
pub fn reply_of(verdict: Verdict) -> Reply
    ensures { reply_record result ≡ reply_of (verdict_of verdict) }
{
    match verdict {
        Ok(counts) => Reply {
            is_yes: true,
            number: 0,
            line: 0,
            terms: counts.terms,
            assumptions: counts.assumptions,
            steps: counts.steps,
            closings: counts.closings,
            place: 0,
        },
        Err(refusal) => Reply {
            is_yes: false,
            number: reason_number(refusal.reason),
            line: refusal.line,
            terms: 0,
            assumptions: 0,
            steps: 0,
            closings: 0,
            place: reason_place(refusal.reason),
        },
    }
}
