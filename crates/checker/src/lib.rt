// The checker: the lines of a whole file, the build host's call, the reply line.
#![tactic(auto)]

ghost use Rattle.std.specs.Prelude.{◌≡◌};
ghost use Rattle.tableau.specs.Claims.{BeginsWithYes, NoHeap};
ghost use Rattle.tableau.specs.Reply as specification;
ghost use Rattle.reply.specs.Verdict.{verdict_of};

use file_run::Run;
use reply::{Reply, Text, Verdict};
use tableau::{Reason, Refusal};
use tree::Tree;

// A file has at most so many bytes (check 1).
pub const FILE_BYTES: usize = 60000;

// The verdict on a file.
fn check(file: &[u8]) -> Verdict
    ensures { verdict_of result ≡ specification.verdict file.now }
{
    if FILE_BYTES < file.len() {
        return Err(Refusal {
            reason: Reason::TooLong,
            line: 0,
        });
    }
    let mut terms = [0; table::NUMBERS];
    let mut chains = [0; table::LINKS];
    let mut rows = [0; mentions::WORDS];
    let mut prefix = [0; freshness::PREFIX_WORDS];
    let mut clauses = [0; clauses::WORDS];
    let run = Run {
        tree: Tree::empty(),
    };
    let ran = run.run(
        file,
        &mut terms,
        &mut chains,
        &mut rows,
        &mut prefix,
        &mut clauses,
    )?;
    ran.progress.end()
}

// The call of a build host, which `checker_c` exports: the refusal number, 0 after a yes; the seven
// numbers in the buffer, or the buffer untouched where its length is wrong.
pub fn tabcheck(file: &[u8], reply: &mut [u8]) -> u32
    ensures value { result ≡ (specification.call file.now reply.old).returns }
    ensures reply_after { reply.new ≡ (specification.call file.now reply.old).buffer }
    ensures no_heap { result ≡ 0 → NoHeap file.now }
{
    if reply.len() != Reply::BUFFER_BYTES {
        return reply::reason_number(Reason::BufferLength) as u32;
    }
    let answer = reply::reply_of(check(file));
    answer.write_numbers(reply);
    answer.number as u32
}

// The reply line of a file.
pub fn reply_line(file: &[u8]) -> Text
    ensures result_value { result ≡ specification.reply_line (specification.reply file.now) }
    ensures no_heap { BeginsWithYes result → NoHeap file.now }
{
    reply::reply_of(check(file)).line()
}
