// The program: reads the checker file and the heap file that its two arguments name, and writes
// their reply line, and nothing else, to standard output.
#![tactic(auto)]

ghost use Rattle.std.specs.Prelude.{◌<◌, ◌≤◌, length, IfOk};
ghost use Rattle.tableau.specs.File.{max_bytes};

use program_io::SPACE;
use std::env::FillError;
use std::fs::File;
use std::io::{Cursor, ErrorKind, Stderr, Write};
use std::rt::{Env, Files};
use std::{io, str};

// Room for a file's name: the system takes paths of up to 4,095 bytes.
const NAME_BYTES: usize = 4096;

// Room for the system's words on an error, and their number behind them.
const REASON_BYTES: usize = 256;

// What the system says of a name that is too long, and of an argument that isn't there.
const NAME_TOO_LONG: i32 = 36;

const INVALID_ARGUMENT: i32 = 22;

// What stands between the system's words and the number that std puts behind them.
const NUMBER: &str = " (os error ";

// Says of what is named why it failed, in the system's words.
fn write_failure(stderr: Stderr, name: &[u8], error: io::Error) {
    let mut reason = Cursor::new([0u8; REASON_BYTES]);
    let _ = write!(reason, "{error}");
    let bytes = reason.into_inner();
    let text = str::from_utf8(&bytes).unwrap_or("");
    let words = match text.split_once(NUMBER) {
        Some((words, _)) => words,
        None => text.trim_end_matches('\0'),
    };
    program_io::write_message(stderr, b"tabeval", b": ");
    program_io::write_message(stderr, name, b": ");
    program_io::write_message(stderr, words.as_bytes(), b"\n");
}

fn read_file<R: Files>(files: &R, name: &[u8], space: &mut [u8]) -> io::Result<usize>
    requires { max_bytes < length space.old }
    ensures { IfOk result (λ n. n ≤ length space.new) }
{
    let Ok(path) = str::from_utf8(name) else {
        return Err(io::Error::new(ErrorKind::InvalidFilename, "the name is not UTF-8"));
    };
    program_io::read_all(&mut File::open(files, path)?, space)
}

// Reads a file, or says why it can't be opened or read. A folder can be opened and not read.
fn read_named<R: Files>(
    files: &R,
    stderr: Stderr,
    name: &[u8],
    space: &mut [u8],
) -> io::Result<usize>
    requires { max_bytes < length space.old }
    ensures { IfOk result (λ n. n ≤ length space.new) }
{
    let read = read_file(files, name, space);
    if let Err(error) = read {
        write_failure(stderr, name, error);
    }
    read
}

// Reads the file that argument i names.
fn read_argument<R: Env + Files>(
    rt: &R,
    stderr: Stderr,
    i: usize,
    space: &mut [u8],
) -> io::Result<usize>
    requires { max_bytes < length space.old }
    ensures { IfOk result (λ n. n ≤ length space.new) }
{
    let mut name = [0u8; NAME_BYTES];
    let code = match rt.arg(i, &mut name) {
        Ok(len) => return read_named(rt, stderr, &name[..len], space),
        Err(FillError::TooLong) => NAME_TOO_LONG,
        Err(FillError::NotPresent) => INVALID_ARGUMENT,
    };
    let error = io::Error::from_raw_os_error(code);
    write_failure(stderr, b"a file's name", error);
    Err(error)
}

// Whether there is an argument i. Argument 0 is the program's name.
fn has_argument(env: &impl Env, i: usize) -> bool {
    let mut start = [0u8; 1];
    match env.arg(i, &mut start) {
        Ok(_) | Err(FillError::TooLong) => true,
        Err(FillError::NotPresent) => false,
    }
}

fn main(rt: HostRuntime) {
    if !has_argument(&rt, 2) || has_argument(&rt, 3) {
        program_io::write_message(
            rt.stderr(),
            b"tabeval",
            b": two arguments are needed, a checker file and a heap file\n",
        );
        return;
    }
    // Without both files there is no reply: the exit status stays 0, so an empty standard output
    // has to say it.
    let mut file: [u8; SPACE] = [0; SPACE];
    let Ok(file_bytes) = read_argument(&rt, rt.stderr(), 1, &mut file) else {
        return;
    };
    let mut heap: [u8; SPACE] = [0; SPACE];
    let Ok(heap_bytes) = read_argument(&rt, rt.stderr(), 2, &mut heap) else {
        return;
    };
    let line = evaluator::evaluation_line(&file[..file_bytes], &heap[..heap_bytes]);
    program_io::write_reply(rt.stdout(), rt.stderr(), b"tabeval", &line);
}
