// The key of a line, and the search for one among those of the lines so far.
ghost use Rattle.std.specs.Prelude.{◌≡◌, ◌<◌};
ghost use Rattle.evaluation.specs.Facts.{fact_index};
ghost use Rattle.facts.specs.Keys.{pack_key, has_key, value_at, SameFound};

use crate::StoredFact;
use evaluation::FactWord;

// The key of a word's index and a subject's numbers.
#[tactic(auto, unfolding(crate::specs::Keys::pack_key))]
pub fn pack_key(index: usize, a: usize, b: usize, c: usize) -> u64
    requires { (index < 16) × (a < 131072) × (b < 131072) × (c < 131072) }
    ensures { result ≡ pack_key index a b c }
{
    (((a * 64 + b) * 16 + c) * 16 + index) as u64
}

// That of a word.
#[tactic(auto, unfolding(evaluation::specs::Facts::fact_index))]
pub fn word_key(word: FactWord, a: usize, b: usize, c: usize) -> u64
    requires { (a < 131072) × (b < 131072) × (c < 131072) }
    ensures { result ≡ pack_key (fact_index word) a b c }
{
    pack_key(word as usize, a, b, c)
}

// The facts behind some of the first, which have another key. Four are compared before it is asked
// whether there are more: one at a time takes 1.4 times the instructions of a full heap file.
#[tactic(auto, unfolding(crate::specs::Keys::value_at))]
fn skip_others(facts: &[StoredFact], key: u64) -> &[StoredFact]
    ensures { SameFound key facts.now result.now }
{
    let mut rest = facts;
    while let [a, b, c, d, behind @ ..] = rest {
        if key == a.key || key == b.key || key == c.key || key == d.key {
            break;
        }
        rest = behind;
    }
    rest
}

// Is the key that of a fact, one looked at after the other?
fn among(facts: &[StoredFact], key: u64) -> bool
    ensures { result ≡ has_key facts.now key }
{
    facts.iter().any(|fact| key == fact.key)
}

// Is the key that of a line?
pub fn has(facts: &[StoredFact], key: u64) -> bool
    ensures { result ≡ has_key facts.now key }
{
    among(skip_others(facts, key), key)
}

// The value of the first line with the key, 0 where there is none.
#[tactic(auto, unfolding(crate::specs::Keys::value_at))]
pub fn value_at(facts: &[StoredFact], key: u64) -> u8
    ensures { result ≡ value_at facts.now key }
{
    for fact in skip_others(facts, key) {
        if key == fact.key {
            return fact.value;
        }
    }
    0
}
