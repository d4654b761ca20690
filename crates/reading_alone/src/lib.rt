// All lines of a file read and nothing checked, so that the reader of lines can be timed alone. No
// part of the checker.
#![tactic(auto)]

ghost use Rattle.std.specs.Prelude.{◌≡◌};
ghost use Rattle.tableau.specs.File.{LF, split};
ghost use Rattle.lines.specs.Lines.{numbers_of};
ghost use Rattle.reading_alone.specs.Reading.{mixed, mixed_lines, read_file};

use lines::{Cursor, LineFields, lines_end, read_line};

// The word and every number count, so that a compiler can leave none of them unread.
#[tactic(auto, unfolding(crate::specs::Reading::mixed))]
fn mix(value: usize, f: LineFields) -> usize
    ensures { result ≡ mixed value f.word (numbers_of f) }
{
    value ^ f.word ^ f.a ^ f.b ^ f.c ^ f.d
}

// The words and the numbers of all lines in one number, if each line has its shape.
fn mix_lines(file: &[u8]) -> Option<usize>
    ensures { result ≡ mixed_lines (split LF file.now) 0 }
{
    let end = lines_end(file);
    let mut value = 0;
    let mut at = 0;
    while at < end {
        let f = read_line(file, Cursor { at })?;
        value = mix(value, f);
        at = f.next.at;
    }
    if at < file.len() { None } else { Some(value) }
}

// The same for C: all bits are set where a line has not its shape, as in no mix of words and
// numbers.
#[tactic(auto, unfolding(crate::specs::Reading::read_file))]
#[unsafe(no_mangle)]
pub extern "C" fn read_lines(file: &[u8]) -> u64
    ensures { result ≡ read_file file.now }
{
    mix_lines(file).map_or(u64::MAX, |value| value as u64)
}
