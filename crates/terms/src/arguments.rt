// Checks 8 and 9 of a T line, of each argument by its operator's row.
ghost use Rattle.std.specs.Prelude.{◌≡◌, ◌<◌, length};
ghost use Rattle.tableau.specs.Basics.{every};
ghost use Rattle.tableau.specs.Fields.{arguments, argument_use, word_fields};
ghost use Rattle.tableau.specs.Terms.{Table};
ghost use Rattle.tableau.specs.Reply.{term_or_name, of_sort};
ghost use Rattle.syntax.specs.Syntax.{word_in, fields_in, term_in};
ghost use Rattle.packing.specs.Packing.{Packable, Small};
ghost use Rattle.table.specs.Held.{Entries};
ghost use Rattle.terms.specs.Lines.{argument_in, row_in};

use crate::is_term;
use syntax::Term;
use tableau::{Operator, Sort, TermNumber};

// The sorts of the terms that an operator takes at its four places; None where it takes nothing.
#[tactic(auto, unfolding(tableau::specs::Fields::arguments))]
fn row_of(operator: Operator) -> [Option<Sort>; 4]
    ensures { row_in result ≡ arguments operator }
{
    let reference = Some(Sort::Reference);
    let region = Some(Sort::Region);
    let heap = Some(Sort::Heap);
    let field = Some(Sort::Field);
    match operator {
        Operator::Nul | Operator::Emp | Operator::All => [None; 4],
        Operator::Rea => [heap, reference, field, None],
        Operator::Cup | Operator::Cap | Operator::Dif => [region, region, None, None],
        Operator::Sin | Operator::Typ => [reference, None, None, None],
        Operator::Img => [heap, region, field, None],
        Operator::Wri => [heap, reference, field, reference],
        Operator::Dty => [field, None, None, None],
    }
}

// Check 8 of an argument.
fn is_made(n: usize, sort: Option<Sort>, t: TermNumber) -> bool
    ensures { (table : Table) → length table ≡ n
        → result ≡ term_or_name table (argument_use (argument_in sort)) t.0 }
{
    sort.is_none() || is_term(n, t)
}

// Check 9 of an argument.
fn has_sort(terms: &[u64; table::NUMBERS], sort: Option<Sort>, t: TermNumber) -> bool
    requires entries { (table : Table) × Entries table terms.now }
    requires small { Small t.0 }
    ensures { (table : Table) → Entries table terms.now
        → result ≡ of_sort table (argument_use (argument_in sort)) t.0 }
{
    sort.is_none_or(|s| table::has_sort(terms, s, t))
}

// Check 8, where n terms are made; a name is not 0.
pub fn are_made(n: usize, term: Term) -> bool
    ensures { (table : Table) → length table ≡ n
        → result ≡ every (term_or_name table) (word_fields (word_in term)) (fields_in term) }
{
    match term {
        Term::Variable(_, name) => 0 < name.0,
        Term::Apply(operator, k) => {
            let [a, b, c, d] = row_of(operator);
            is_made(n, a, k.a) && is_made(n, b, k.b) && is_made(n, c, k.c) && is_made(n, d, k.d)
        }
    }
}

// Check 9.
pub fn have_sorts(terms: &[u64; table::NUMBERS], term: Term) -> bool
    requires entries { (table : Table) × Entries table terms.now }
    requires packable { Packable (term_in term) }
    ensures { (table : Table) → Entries table terms.now
        → result ≡ every (of_sort table) (word_fields (word_in term)) (fields_in term) }
{
    match term {
        Term::Variable(_, _) => true,
        Term::Apply(operator, k) => {
            let [a, b, c, d] = row_of(operator);
            has_sort(terms, a, k.a)
                && has_sort(terms, b, k.b)
                && has_sort(terms, c, k.c)
                && has_sort(terms, d, k.d)
        }
    }
}
