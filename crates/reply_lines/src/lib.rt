// A reply line, from its bytes to a reply: a word and seven numbers, read as those of any line; and
// whether a reply contradicts itself.
#![tactic(auto)]

ghost use Rattle.std.specs.Prelude.{Some, ◌≡◌, ◌-◌, ◌<◌};
ghost use Rattle.lines.specs.Lines.{LFAhead};
ghost use Rattle.lines.specs.ByteSteps.{end_of};
ghost use Rattle.words.specs.Words.{lookup_packed};
ghost use Rattle.reply.specs.Verdict.{reply_record};
ghost use Rattle.statistics.specs.ReplyLines.{answers, seven_numbers, contradictory_yes, any_count};
ghost use Rattle.statistics.specs.ReplyLines.{contradictory_no, contradictory};
ghost use Rattle.reply_lines.specs.Reading.{number_count, NumbersHere, read_as, reply_at};

use lines::{read_number, read_word};
use reply::Reply;
use words::row_of;

const LF: u8 = 10;

// "Numbers in reply lines have at most five digits"
const DIGITS: usize = 5;

// The numbers of a reply.
const COUNT: usize = 7;

fn answer_of(word: usize) -> Option<bool>
    ensures { result ≡ lookup_packed answers word }
{
    row_of(word, b"yes no\0 ", &[true, false])
}

// The byte that ends number i.
fn end_of(i: usize) -> u8
    requires { i < number_count }
    ensures { result ≡ end_of (number_count - 1 - i) }
{
    if i + 1 < COUNT { b',' } else { LF }
}

// The numbers, and the position after the LF.
fn read_numbers(file: &[u8], at: usize) -> Option<([usize; COUNT], usize)>
    requires { LFAhead file.now at }
    ensures { NumbersHere file.now at result }
{
    let mut values = [0; COUNT];
    let mut next = at;
    for i in 0..COUNT {
        (values[i], next) = read_number(file, next, DIGITS, end_of(i))?;
    }
    Some((values, next))
}

// The numbers in the reply's order.
fn reply_from(is_yes: bool, values: [usize; COUNT]) -> Reply
    ensures { seven_numbers is_yes values ≡ Some (reply_record result) }
{
    let [number, line, terms, assumptions, steps, closings, place] = values;
    Reply {
        is_yes,
        number,
        line,
        terms,
        assumptions,
        steps,
        closings,
        place,
    }
}

// The reply line that begins at the position, before the last LF: its reply, and the position after
// its LF.
pub fn read_reply(file: &[u8], at: usize) -> Option<(Reply, usize)>
    requires { LFAhead file.now at }
    ensures { read_as result ≡ reply_at file.now at }
{
    let (word, at) = read_word(file, at)?;
    let (values, next) = read_numbers(file, at)?;
    let is_yes = answer_of(word)?;
    Some((reply_from(is_yes, values), next))
}

fn contradictory_yes(r: Reply) -> bool
    ensures { result ≡ contradictory_yes (reply_record r) }
{
    r.number != 0 || r.line != 0 || r.place != 0
}

fn any_count(r: Reply) -> bool
    ensures { result ≡ any_count (reply_record r) }
{
    r.terms != 0 || r.assumptions != 0 || r.steps != 0 || r.closings != 0
}

fn contradictory_no(r: Reply) -> bool
    ensures { result ≡ contradictory_no (reply_record r) }
{
    r.number == 0 || any_count(r) || r.place != 0 && r.number != 13
}

#[tactic(auto, unfolding(statistics::specs::ReplyLines::contradictory))]
pub fn contradicts_itself(r: Reply) -> bool
    ensures { result ≡ contradictory (reply_record r) }
{
    if r.is_yes {
        contradictory_yes(r)
    } else {
        contradictory_no(r)
    }
}
