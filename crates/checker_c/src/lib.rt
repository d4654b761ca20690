// The checker as a static library: the build host's call, for C and for Rust.
#![tactic(auto)]

ghost use Rattle.std.specs.Prelude.{◌≡◌};
ghost use Rattle.tableau.specs.Claims.{NoHeap};
ghost use Rattle.tableau.specs.Reply as specification;

// The call of a build host: the refusal number, 0 after a yes; the seven numbers in the buffer, or
// the buffer untouched where its length is wrong.
#[unsafe(no_mangle)]
pub extern "C" fn tabcheck(file: &[u8], reply: &mut [u8]) -> u32
    ensures value { result ≡ (specification.call file.now reply.old).returns }
    ensures reply_after { reply.new ≡ (specification.call file.now reply.old).buffer }
    ensures no_heap { result ≡ 0 → NoHeap file.now }
{
    checker::tabcheck(file, reply)
}
