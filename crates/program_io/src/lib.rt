// What the programs share: an input read to its end, a reply line written, a message on standard
// error.
#![tactic(auto)]

ghost use Rattle.std.specs.Prelude.{◌≡◌, ◌≤◌, ◌<◌, length, IfOk};
ghost use Rattle.tableau.specs.File.{max_bytes};
ghost use Rattle.program_io.specs.Input.{Brings};

use reply::Text;
use std::io;
use std::io::{Read, Stderr, Stdout};

// One byte more than a file may have: when it is filled, the file is too long, whatever follows.
pub const SPACE: usize = 60001;

// Reads until the input ends or space is full, however few bytes each read brings, and returns how
// many came; or why a read failed, which cuts off what came before it. Nothing is said
// of what a failed read leaves in space or in the reader. What space holds behind the bytes that
// came is free too: nobody looks at it.
pub fn read_all<R: Read>(reader: &mut R, space: &mut [u8]) -> io::Result<usize>
    requires { max_bytes < length space.old }
    ensures same_room { length space.new ≡ length space.old }
    ensures fits { IfOk result (λ n. n ≤ length space.new) }
    ensures brings { IfOk result
        (λ n. Brings (R.remaining reader.old) (R.remaining reader.new) n space.new) }
{
    let mut done = 0;
    while done < space.len() {
        let more = reader.read(&mut space[done..])?;
        if more == 0 {
            break;
        }
        done += more;
    }
    Ok(done)
}

// A message begins with the program's name. Where it can't be written there is no one to tell.
pub fn write_message(stderr: Stderr, program: &[u8], message: &[u8]) {
    let _ = stderr.write_all(program);
    let _ = stderr.write_all(message);
}

// Reads standard input, or says that it can't be read. After a failed read there is no reply: the
// bytes before it are not the whole input, and a yes to them would be read as a yes to all of it.
// The exit status stays 0, so an empty standard output has to say it.
pub fn read_standard_input<R: Read>(
    stdin: &mut R,
    stderr: Stderr,
    program: &[u8],
    space: &mut [u8],
) -> io::Result<usize>
    requires { max_bytes < length space.old }
    ensures same_room { length space.new ≡ length space.old }
    ensures fits { IfOk result (λ n. n ≤ length space.new) }
    ensures brings { IfOk result
        (λ n. Brings (R.remaining stdin.old) (R.remaining stdin.new) n space.new) }
{
    let input = read_all(stdin, space);
    if input.is_err() {
        write_message(stderr, program, b": standard input can't be read\n");
    }
    input
}

// Standard output has the whole line, or standard error says that it may not.
pub fn write_reply(stdout: Stdout, stderr: Stderr, program: &[u8], text: &Text) {
    if stdout.write_all(text.as_bytes()).is_err() {
        write_message(
            stderr,
            program,
            b": the reply can't be written to standard output\n",
        );
    }
}

// Replies to standard input: with what `reply` makes of it on standard output, where it can be read.
pub fn answer<R: Read, F: Fn(&[u8]) -> Text>(
    stdin: &mut R,
    stdout: Stdout,
    stderr: Stderr,
    program: &[u8],
    space: &mut [u8],
    reply: F,
)
    requires room { max_bytes < length space.old }
    requires callable { F.IsAlwaysCallable reply }
{
    if let Ok(n) = read_standard_input(stdin, stderr, program, space) {
        write_reply(stdout, stderr, program, &reply(&space[..n]));
    }
}
