// T lines make terms, A and C lines make literals of them: checks 7 to 10, in arrays that the
// caller lends. (Check 6, that unused fields are 0, is the caller's.)
#![tactic(auto)]

ghost use Rattle.std.specs.Prelude.{◌≡◌, true, ◌<◌, length};
ghost use Rattle.tableau.specs.Basics.{every};
ghost use Rattle.tableau.specs.Fields.{sides, word_fields};
ghost use Rattle.tableau.specs.Terms.{Table};
ghost use Rattle.tableau.specs.Reply.{zero_if_unused, is_term, literal_line};
ghost use Rattle.syntax.specs.Syntax.{word_in, fields_in, sides_in};
ghost use Rattle.packing.specs.Packing.{name_limit};
ghost use Rattle.table.specs.Held.{Entries};
ghost use Rattle.terms.specs.Arrays.{arrays, Held};
ghost use Rattle.terms.specs.Lines.{MakesTerm, assumption_of, SmallCode};

use packing::term_codes::pack;
use syntax::{Literal, Term};
use tableau::{Reason, TermNumber};

mod arguments;
mod sides;

// Check 8 of a field that holds a term, where n terms are made. (Check 9 is `table::has_sort`.)
pub fn is_term(n: usize, t: TermNumber) -> bool
    ensures { (table : Table) → length table ≡ n → result ≡ is_term table t.0 }
{
    0 < t.0 && t.0 <= n
}

// The checks 7 to 10 of a T line, where n terms are made.
pub fn make_term(
    terms: &mut [u64; table::NUMBERS],
    chains: &mut [u16; table::LINKS],
    rows: &mut [u64; mentions::WORDS],
    n: usize,
    term: Term,
) -> Result<(), Reason>
    requires held { (table : Table) × Held table (arrays terms.old chains.old rows.old) n }
    requires term_value { (every zero_if_unused (word_fields (word_in term)) (fields_in term) ≡ true)
        × ((fields_in term).a < name_limit) }
    ensures { (table : Table) → Held table (arrays terms.old chains.old rows.old) n
        → MakesTerm table term (arrays terms.old chains.old rows.old)
        (arrays terms.new chains.new rows.new) n result }
{
    if table::TERMS <= n {
        return Err(Reason::TooManyTerms);
    }
    if !arguments::are_made(n, term) {
        return Err(Reason::NoSuchTerm);
    }
    if !arguments::have_sorts(terms, term) {
        return Err(Reason::WrongSort);
    }
    let packed = pack(term);
    if table::search(terms, chains, packed).is_some() {
        return Err(Reason::TermRepeated);
    }
    let number = TermNumber(n + 1);
    table::add(terms, chains, number, packed);
    mentions::note(rows, number, term);
    Ok(())
}

// The checks 8 and 9 of an A or C line, where n terms are made: the packed literal.
pub fn assume_literal(
    terms: &[u64; table::NUMBERS],
    n: usize,
    literal: Literal,
) -> Result<u32, Reason>
    requires { (table : Table) × Entries table terms.now × (length table ≡ n) }
    ensures value { (table : Table) → Entries table terms.now → length table ≡ n
        → result ≡ assumption_of
        (literal_line table (sides literal.relation) literal.relation (sides_in literal)) }
    ensures small_code { SmallCode result }
{
    if !sides::are_made(n, literal) {
        return Err(Reason::NoSuchTerm);
    }
    if !sides::have_sorts(terms, literal) {
        return Err(Reason::WrongSort);
    }
    Ok(packing::literals::pack(literal))
}
