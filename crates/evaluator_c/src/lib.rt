// The evaluator as a static library: the build host's call, for C and for Rust.
#![tactic(auto)]

ghost use Rattle.std.specs.Prelude.{true, ◌≡◌};
ghost use Rattle.tableau.specs.Reply.{reply as reply_to};
ghost use Rattle.evaluation.specs.Evaluation as specification;
ghost use Rattle.evaluation.specs.Claims.{Means};

// The call of a build host: the refusal number, 0 without a refusal; the three numbers in the
// buffer, or the buffer untouched where its length is wrong.
#[unsafe(no_mangle)]
pub extern "C" fn tabeval(file: &[u8], heap: &[u8], reply: &mut [u8]) -> u32
    ensures value { result ≡ (specification.evaluation_call file.now heap.now reply.old).returns }
    ensures reply_after { reply.new ≡ (specification.evaluation_call file.now heap.now reply.old).buffer }
    ensures means { result ≡ 0 → Means file.now heap.now (specification.evaluation file.now heap.now) }
    ensures never_all_true { (reply_to file.now).is_yes ≡ true → reply.new ≡ specification.evaluation_bytes (specification.no_refusal 0) → ⊥ }
{
    evaluator::tabeval(file, heap, reply)
}
