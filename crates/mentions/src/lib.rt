// Which terms stand in which, in an array that the caller lends: the row of the term t, ROW words
// from t * ROW on, has a bit for each number, set where the term of that number stands in t.
#![tactic(auto)]

ghost use Rattle.std.specs.Prelude.{◌≡◌, Bool, false, List, ℕ, ◌+◌, ◌*◌, ◌<◌, ◌≤◌, get_or};
ghost use Rattle.tableau.specs.Terms.{max_terms};
ghost use Rattle.syntax.specs.Syntax.{arguments_in, term_in};
ghost use Rattle.mentions.specs.Mentions.{row, bit_at, joined_bit, term_arguments, argument_bits};
ghost use Rattle.mentions.specs.Mentions.{AllBelow, Filled, Noted};

use syntax::{Arguments, Term};
use tableau::TermNumber;

// The words of a row: a bit for each of the numbers up to 600.
pub const ROW: usize = 10;

// A row for each of the numbers 0 to 600; none stands in the number 0.
pub const WORDS: usize = 6010;

// Word i of the row of a term.
fn word_at(rows: &[u64; WORDS], term: TermNumber, i: usize) -> u64
    requires { (term.0 ≤ max_terms) × (i < row) }
    ensures { result ≡ get_or rows.now (term.0 * row + i) 0 }
{
    rows[term.0 * ROW + i]
}

// Word i of the rows of the arguments together.
fn joined_word(rows: &[u64; WORDS], k: Arguments, i: usize) -> u64
    requires { AllBelow (max_terms + 1) (arguments_in k) × (i < row) }
    ensures { (q : ℕ) → bit_at result q ≡ joined_bit rows.now (arguments_in k) i q }
{
    word_at(rows, k.a, i) | word_at(rows, k.b, i) | word_at(rows, k.c, i) | word_at(rows, k.d, i)
}

// The row of a term that has no argument, but for its own bit.
fn clear(rows: &mut [u64; WORDS], term: TermNumber)
    requires { term.0 ≤ max_terms }
    ensures { Filled rows.old rows.new term.0 (λ i q. false) row }
{
    rows[term.0 * ROW..(term.0 + 1) * ROW].fill(0);
}

// The row of a term with what stands in its arguments, but for its own bit.
fn join(rows: &mut [u64; WORDS], term: TermNumber, k: Arguments)
    requires { (term.0 ≤ max_terms) × AllBelow term.0 (arguments_in k) }
    ensures { Filled rows.old rows.new term.0 (joined_bit rows.old (arguments_in k)) row }
{
    for i in 0..ROW {
        rows[term.0 * ROW + i] = joined_word(rows, k, i);
    }
}

// Sets the term's own bit in its row.
fn set_own(rows: &mut [u64; WORDS], term: TermNumber)
    requires { term.0 ≤ max_terms }
    ensures { (old : List ℕ) (f : ℕ → ℕ → Bool) → Filled old rows.old term.0 f row
        → Noted old rows.new term.0 f }
{
    rows[term.0 * ROW + term.0 / 64] |= 1 << (term.0 % 64);
}

// Notes what stands in the new term t: itself, and what stands in its arguments. A name is no
// argument.
pub fn note(rows: &mut [u64; WORDS], t: TermNumber, term: Term)
    requires { (t.0 ≤ max_terms) × AllBelow t.0 (term_arguments (term_in term)) }
    ensures { Noted rows.old rows.new t.0 (argument_bits rows.old (term_in term)) }
{
    match term {
        Term::Variable(_, _) => clear(rows, t),
        Term::Apply(_, k) => join(rows, t, k),
    }
    set_own(rows, t);
}
