// The part of a checker file that is read: "Reading of the checker file stops before the first line
// that begins `S,`."
#![tactic(auto)]

ghost use Rattle.std.specs.Prelude.{◌≡◌, ◌≤◌, length};
ghost use Rattle.evaluation.specs.Parts.{steps_at};

const LF: u8 = 10;

// The position of that line; the file's length where there is none.
pub fn steps_at(file: &[u8]) -> usize
    ensures { (result ≡ steps_at file.now) × (result ≤ length file.now) }
{
    let mut line_start = true;
    for (at, byte) in file.iter().enumerate() {
        if line_start && file[at..].starts_with(b"S,") {
            return at;
        }
        line_start = *byte == LF;
    }
    file.len()
}
