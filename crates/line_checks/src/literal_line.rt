// What A and C lines share: a relation and two terms.
ghost use Rattle.std.specs.Prelude.{◌≡◌, length};
ghost use Rattle.tableau.specs.Terms.{Table};
ghost use Rattle.table.specs.Held.{Entries};
ghost use Rattle.terms.specs.Lines.{assumption_of, SmallCode};
ghost use Rattle.line_checks.specs.Checks.{literal_read};

use lines::LineFields;
use tableau::{Letter, Reason};
use terms::assume_literal;

// Checks 4, 6, 8 and 9 of a line with the letter, and its literal, where n terms are made.
pub fn read(
    letter: Letter,
    f: LineFields,
    terms: &[u64; table::NUMBERS],
    n: usize,
) -> Result<u32, Reason>
    requires { (table : Table) × Entries table terms.now × (length table ≡ n) }
    ensures value { (table : Table) → Entries table terms.now → length table ≡ n
        → result ≡ assumption_of (literal_read table letter f) }
    ensures small_code { SmallCode result }
{
    let relation = words::relation_of(f.word).ok_or(Reason::UnknownWord)?;
    let literal = parsing::literal_of(letter, relation, f)?;
    assume_literal(terms, n, literal)
}
