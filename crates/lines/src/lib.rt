// A line of the file, from its bytes to its six fields, in one pass: a step gets one byte and the
// field read so far.
#![tactic(auto)]

ghost use Rattle.std.specs.Prelude.{◌≡◌, ◌<◌, ◌≤◌, ◌^◌};
ghost use Rattle.lines.specs.Lines.{line_at, LFAhead, LinesEnd};
ghost use Rattle.lines.specs.ByteSteps.{next_letter, first_digit, next_digit, LettersFit};
ghost use Rattle.lines.specs.ByteSteps.{most_digits, DigitsFit};
ghost use Rattle.lines.specs.ByteSteps.{LetterSteps, WordSteps, DigitsSteps, NumberSteps};

// A position in the file.
#[derive(Clone, Copy)]
pub struct Cursor {
    pub at: usize,
}

// The six fields of a line, its word packed in one number, and the position after its LF. The
// letter is any capital: each kind of file says which it knows. That the numbers are small is no
// ghost field: the specification's line_fields makes the fields of any line.
#[derive(Clone, Copy)]
pub struct LineFields {
    pub letter: u8,
    pub word: usize,
    pub a: usize,
    pub b: usize,
    pub c: usize,
    pub d: usize,
    pub next: Cursor,
}

const LF: u8 = 10;

// "numbers of one to [five] digits"
const LINE_DIGITS: usize = 5;

// What one byte more of a field leads to: the field goes on with a new value, it ends before the
// byte, or it has not its shape.
#[derive(Clone, Copy)]
enum ByteStep {
    More(usize),
    End,
    Bad,
}

// The letter, and the position after its comma.
fn read_letter(file: &[u8], at: usize) -> Option<(u8, usize)>
    requires { LFAhead file.now at }
    ensures { LetterSteps file.now at result }
{
    let letter = file[at];
    if letter.is_ascii_uppercase() && file[at + 1] == b',' {
        Some((letter, at + 2))
    } else {
        None
    }
}

// The unit of a word's letter after count others.
fn unit(count: usize) -> usize
    requires { count < 3 }
    ensures { result ≡ 256 ^ count }
{
    match count {
        0 => 1,
        1 => 256,
        _ => 65536,
    }
}

// One byte more of a word, of which count letters make value.
#[tactic(auto, using(std::proofs::lemmas::Bool::Decides::nat_tests), unfolding(crate::specs::ByteSteps::next_letter))]
fn next_letter(value: usize, count: usize, x: u8) -> ByteStep
    requires { LettersFit value count }
    ensures { result ≡ next_letter value count x }
{
    match x {
        b'a'..=b'z' if count < 3 => ByteStep::More(value + unit(count) * usize::from(x)),
        b',' if 2 <= count => ByteStep::End,
        _ => ByteStep::Bad,
    }
}

// A word packed in one number, and the position after the comma that ends it. An LF is ahead, so
// the loop goes by the bytes and not by the file's end. That one is ahead is a clause here and no
// ghost field of a position: behind the LF that ends a line there may be none.
pub fn read_word(file: &[u8], at: usize) -> Option<(usize, usize)>
    requires { LFAhead file.now at }
    ensures { WordSteps file.now at result }
{
    let mut i = at;
    let mut value = 0;
    let mut count = 0;
    loop {
        let step = next_letter(value, count, file[i]);
        i += 1;
        match step {
            ByteStep::More(next) => {
                value = next;
                count += 1;
            }
            ByteStep::End => return Some((value, i)),
            ByteStep::Bad => return None,
        }
    }
}

// The first digit of a number of at most so many, and how many may follow it: none after a 0. Tried
// and too slow: an arm of its own for the 0.
#[tactic(auto, using(std::proofs::lemmas::Bool::Decides::nat_tests), unfolding(crate::specs::ByteSteps::first_digit))]
fn first_digit(x: u8, limit: usize) -> Option<(usize, usize)>
    requires { 0 < limit }
    ensures { result ≡ first_digit limit x }
{
    match x {
        b'0'..=b'9' => {
            let left = if x == b'0' { 0 } else { limit - 1 };
            Some((usize::from(x - b'0'), left))
        }
        _ => None,
    }
}

// One byte more of a number whose digits so far make value, where left more may follow. The byte
// that ends it is below the digits; most numbers are short, so it is asked for first.
#[tactic(auto, using(std::proofs::lemmas::Bool::Decides::nat_tests), unfolding(crate::specs::ByteSteps::next_digit))]
fn next_digit(value: usize, left: usize, x: u8, end: u8) -> ByteStep
    requires { (end < 48) × DigitsFit value left }
    ensures { result ≡ next_digit value left x end }
{
    if x == end {
        return ByteStep::End;
    }
    match x {
        b'0'..=b'9' if 0 < left => ByteStep::More(10 * value + usize::from(x - b'0')),
        _ => ByteStep::Bad,
    }
}

// A number from its second digit on, where first is its first digit and at most max more may
// follow.
fn read_digits(file: &[u8], at: usize, first: usize, max: usize, end: u8) -> Option<(usize, usize)>
    requires { (end < 48) × DigitsFit first max × LFAhead file.now at }
    ensures { DigitsSteps first max end file.now at result }
{
    let mut i = at;
    let mut value = first;
    let mut left = max;
    loop {
        let step = next_digit(value, left, file[i], end);
        i += 1;
        match step {
            ByteStep::More(next) => {
                value = next;
                left -= 1;
            }
            ByteStep::End => return Some((value, i)),
            ByteStep::Bad => return None,
        }
    }
}

// A number of at most so many digits, and the position after the byte that ends it.
pub fn read_number(file: &[u8], at: usize, limit: usize, end: u8) -> Option<(usize, usize)>
    requires { (0 < limit) × (limit ≤ most_digits) × (end < 48) × LFAhead file.now at }
    ensures { NumberSteps limit end file.now at result }
{
    let (value, left) = first_digit(file[at], limit)?;
    read_digits(file, at + 1, value, left, end)
}

// The position behind the last LF, 0 where there is none: what stands behind it is no line. It is
// looked for from the file's end, where it mostly stands.
pub fn lines_end(file: &[u8]) -> usize
    ensures { LinesEnd file.now result }
{
    file.iter().rposition(|x| *x == LF).map_or(0, |i| i + 1)
}

// The line that begins at the cursor, before the last LF. No field has an LF in it, so that no step
// comes upon the end of the file, and none tests for it.
pub fn read_line(file: &[u8], cursor: Cursor) -> Option<LineFields>
    requires { LFAhead file.now cursor.at }
    ensures { result ≡ line_at file.now cursor.at }
{
    let (letter, at) = read_letter(file, cursor.at)?;
    let (word, at) = read_word(file, at)?;
    let (a, at) = read_number(file, at, LINE_DIGITS, b',')?;
    let (b, at) = read_number(file, at, LINE_DIGITS, b',')?;
    let (c, at) = read_number(file, at, LINE_DIGITS, b',')?;
    let (d, at) = read_number(file, at, LINE_DIGITS, LF)?;
    Some(LineFields {
        letter,
        word,
        a,
        b,
        c,
        d,
        next: Cursor { at },
    })
}
