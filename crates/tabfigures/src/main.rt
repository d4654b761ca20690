// The program: reads a night's replies from standard input and writes the line of figures, and
// nothing else, to standard output.
#![tactic(auto)]

use program_io::SPACE;

fn main(rt: HostRuntime) {
    let mut space: [u8; SPACE] = [0; SPACE];
    program_io::answer(
        &mut rt.stdin(),
        rt.stdout(),
        rt.stderr(),
        b"tabfigures",
        &mut space,
        figures::figures,
    );
}
