// The checks of a D line that is read, in the order of their numbers.
ghost use Rattle.std.specs.Prelude.{◌≡◌};
ghost use Rattle.evaluation.specs.Facts.{fact_fields, Facts, sizes as sizesGiven, allowed as isAllowed};
ghost use Rattle.lines.specs.Lines.{numbers_of};
ghost use Rattle.running.specs.Running.{SmallNumbers};
ghost use Rattle.facts.specs.Keys.{sizes_of, key_of, value_of, FactsHeld};
ghost use Rattle.facts.specs.Reading.{SizesFit, ValuesFit, WordDone, FactDone};

use crate::fields::{all_in_range, row_of, subject_part, unused_zero, value_part, word_of};
use crate::keys::{has, word_key};
use crate::{Sizes, StoredFact};
use evaluation::FactWord;
use lines::LineFields;
use tableau::Reason;

// `siz`, packed.
const SIZ: usize = 8022387;

#[tactic(auto, unfolding(crate::specs::Keys::key_of, evaluation::specs::Facts::subject_of))]
fn key_of(word: FactWord, f: LineFields) -> u64
    requires { SmallNumbers (numbers_of f) }
    ensures { result ≡ key_of word (numbers_of f) }
{
    let (a, b, c, _) = row_of(word);
    word_key(
        word,
        subject_part(a, f.a),
        subject_part(b, f.b),
        subject_part(c, f.c),
    )
}

#[tactic(auto, unfolding(crate::specs::Keys::value_of))]
fn value_of(word: FactWord, f: LineFields) -> u8
    requires { ValuesFit (fact_fields word) (numbers_of f) }
    ensures { result ≡ value_of word (numbers_of f) }
{
    let (a, b, c, d) = row_of(word);
    (value_part(a, f.a) + value_part(b, f.b) + value_part(c, f.c) + value_part(d, f.d)) as u8
}

// A part of check 19: "a class put under itself, an allocated 0, or a member not yet allocated".
fn allowed(word: FactWord, f: LineFields, facts: &[StoredFact]) -> bool
    requires { SmallNumbers (numbers_of f) }
    ensures { (g : Facts) → FactsHeld g facts.now → result ≡ isAllowed g word (numbers_of f) }
{
    match word {
        FactWord::Alc => f.a != 0,
        FactWord::Sub => f.a != f.b,
        FactWord::Rgv => has(facts, word_key(FactWord::Alc, f.b, 0, 0)),
        _ => true,
    }
}

// Checks 6 and 19 of a line whose word is known.
fn check_word(
    word: FactWord,
    f: LineFields,
    facts: &[StoredFact],
    sizes: Sizes,
) -> Result<StoredFact, Reason>
    requires { SmallNumbers (numbers_of f) × SizesFit (sizes_of sizes) }
    ensures { (g : Facts) → FactsHeld g facts.now → sizesGiven g ≡ sizes_of sizes
        → WordDone g f word result }
{
    let row = row_of(word);
    if !unused_zero(row, f) {
        return Err(Reason::UnusedField);
    }
    let key = key_of(word, f);
    if !all_in_range(sizes, row, f) || has(facts, key) || !allowed(word, f, facts) {
        return Err(Reason::BadFact);
    }
    Ok(StoredFact {
        key,
        value: value_of(word, f),
    })
}

// Checks 2, 3 and 4, then those above.
pub fn check_fact(f: LineFields, facts: &[StoredFact], sizes: Sizes) -> Result<StoredFact, Reason>
    requires { SmallNumbers (numbers_of f) × SizesFit (sizes_of sizes) }
    ensures { (g : Facts) → FactsHeld g facts.now → sizesGiven g ≡ sizes_of sizes
        → FactDone g f result }
{
    if f.letter != b'D' {
        return Err(Reason::BadShape);
    }
    // the first line is `siz`, and no other
    if facts.is_empty() != (f.word == SIZ) {
        return Err(Reason::LetterOrder);
    }
    let word = word_of(f.word).ok_or(Reason::UnknownWord)?;
    check_word(word, f, facts, sizes)
}
