// The replies of a night, in one loop.
ghost use Rattle.std.specs.Prelude.{List, [], ◌∷◌, ◌++◌, ◌≡◌, ◌+◌, ◌<◌, ◌^◌};
ghost use Rattle.tableau.specs.declared.Reason.{Reason};
ghost use Rattle.tableau.specs.Reply as specification;
ghost use Rattle.reply.specs.Verdict.{reply_record};
ghost use Rattle.statistics.specs.ReplyLines.{reply_digits};
ghost use Rattle.figures.specs.Totals.{most_replies};
ghost use Rattle.figures.specs.Night.{TotalsIn, ReadTo};

use crate::totals::Totals;
use lines::lines_end;
use reply::Reply;
use reply_lines::{contradicts_itself, read_reply};
use tableau::{Reason, Refusal};

// A night has at most so many bytes.
const NIGHT_BYTES: usize = 60000;

impl Totals {
    fn none() -> Totals
        ensures { TotalsIn [] result }
    {
        Totals {
            files: 0,
            accepted: 0,
            sum: 0,
            squares: 0,
        }
    }

    fn add(&mut self, reply: Reply)
        requires { (self.old.files < most_replies) × (reply.steps < 10 ^ reply_digits) }
        ensures { (rs : List specification.Reply) → TotalsIn rs self.old
            → TotalsIn (rs ++ (reply_record reply ∷ [])) self.new }
    {
        self.files += 1;
        if reply.is_yes {
            self.accepted += 1;
            self.sum += reply.steps;
            self.squares += reply.steps * reply.steps;
        }
    }

    // The line behind those that are read is bad.
    fn bad_line(self) -> Refusal
        ensures { result ≡ record { reason = Reason.BadShape; line = self.files + 1 } }
    {
        Refusal {
            reason: Reason::BadShape,
            line: self.files + 1,
        }
    }
}

// The totals over all replies, or the first line that is refused.
pub fn read_night(replies: &[u8]) -> Result<Totals, Refusal>
    ensures { ReadTo replies.now result }
{
    if NIGHT_BYTES < replies.len() {
        return Err(Refusal {
            reason: Reason::TooLong,
            line: 0,
        });
    }
    let end = lines_end(replies);
    let mut totals = Totals::none();
    let mut at = 0;
    while at < end {
        let Some((reply, next)) = read_reply(replies, at) else {
            return Err(totals.bad_line());
        };
        if contradicts_itself(reply) {
            return Err(totals.bad_line());
        }
        totals.add(reply);
        at = next;
    }
    if at < replies.len() {
        return Err(totals.bad_line());
    }
    Ok(totals)
}
