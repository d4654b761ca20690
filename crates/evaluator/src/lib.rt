// The evaluator: a heap file tried against the assumptions of a checker file; the build host's
// call, the reply line.
#![tactic(auto)]

mod assumptions;
mod trial;
mod values;

ghost use Rattle.std.specs.Prelude.{true, ◌≡◌};
ghost use Rattle.tableau.specs.Reply.{reply as reply_to};
ghost use Rattle.evaluation.specs.Evaluation as specification;
ghost use Rattle.evaluation.specs.Claims.{Means};
ghost use Rattle.evaluation_reply.specs.Evaluation.{evaluation_record};

use assumptions::Assumptions;
use checker::FILE_BYTES;
use evaluation_reply::{Evaluation, refused};
use file_run::{Ran, Run};
use reply::Text;
use step_prefix::steps_at;
use tableau::{Reason, Refusal};
use tree::Tree;

// The number of the checker file in a reply, as the specification has it; `trial` has the other.
const CHECKER_FILE: usize = 1;

// The reply to both files. It equals the meaning; so, if the checker accepts the file, it is never
// 0,0,0.
pub fn evaluate(file: &[u8], heap: &[u8]) -> Evaluation
    ensures result_value { evaluation_record result ≡ specification.evaluation file.now heap.now }
    ensures means { result.number ≡ 0 → Means file.now heap.now (evaluation_record result) }
    ensures fact { (reply_to file.now).is_yes ≡ true → evaluation_record result ≡ specification.no_refusal 0 → ⊥ }
{
    if FILE_BYTES < file.len() {
        return refused(Reason::TooLong, CHECKER_FILE, 0);
    }
    let mut terms = [0; table::NUMBERS];
    let mut chains = [0; table::LINKS];
    let mut rows = [0; mentions::WORDS];
    let mut prefix = [0; freshness::PREFIX_WORDS];
    let mut clauses = [0; clauses::WORDS];
    let run = Run {
        tree: Tree::empty(),
    };
    let end = steps_at(file);
    match run.run(
        &file[..end],
        &mut terms,
        &mut chains,
        &mut rows,
        &mut prefix,
        &mut clauses,
    ) {
        Err(Refusal { reason, line }) => refused(reason, CHECKER_FILE, line),
        Ok(Ran { tree, progress }) => {
            let assumptions = Assumptions {
                terms: &terms,
                count: progress.counts.terms,
                branch: tree.view().branch,
                clauses: &clauses,
                last: progress.clauses,
            };
            assumptions.read_heap(heap)
        }
    }
}

// The call of a build host, which `evaluator_c` exports: the refusal number, 0 without a refusal;
// the three numbers in the buffer, or the buffer untouched where its length is wrong.
pub fn tabeval(file: &[u8], heap: &[u8], reply: &mut [u8]) -> u32
    ensures value { result ≡ (specification.evaluation_call file.now heap.now reply.old).returns }
    ensures reply_after { reply.new ≡ (specification.evaluation_call file.now heap.now reply.old).buffer }
    ensures means { result ≡ 0 → Means file.now heap.now (specification.evaluation file.now heap.now) }
    ensures never_all_true { (reply_to file.now).is_yes ≡ true → reply.new ≡ specification.evaluation_bytes (specification.no_refusal 0) → ⊥ }
{
    if reply.len() != Evaluation::BUFFER_BYTES {
        return reply::reason_number(Reason::BufferLength) as u32;
    }
    let answer = evaluate(file, heap);
    answer.write_numbers(reply);
    answer.number as u32
}

// The reply line.
pub fn evaluation_line(file: &[u8], heap: &[u8]) -> Text
    ensures result_value { result ≡ specification.evaluation_line (specification.evaluation file.now heap.now) }
    ensures never_all_true { (reply_to file.now).is_yes ≡ true → result ≡ specification.evaluation_line (specification.no_refusal 0) → ⊥ }
{
    evaluate(file, heap).line()
}
