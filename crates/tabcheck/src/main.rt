// The program: reads a file from standard input and writes its reply line, and nothing else, to
// standard output.
#![tactic(auto)]

use program_io::SPACE;

fn main(rt: HostRuntime) {
    let mut space: [u8; SPACE] = [0; SPACE];
    program_io::answer(
        &mut rt.stdin(),
        rt.stdout(),
        rt.stderr(),
        b"tabcheck",
        &mut space,
        checker::reply_line,
    );
}
