// Checks 8 and 9 of an A line, of both sides by the relation.
ghost use Rattle.std.specs.Prelude.{◌≡◌, length};
ghost use Rattle.tableau.specs.Basics.{every};
ghost use Rattle.tableau.specs.Fields.{sides};
ghost use Rattle.tableau.specs.Terms.{Table};
ghost use Rattle.tableau.specs.Reply.{term_or_name};
ghost use Rattle.syntax.specs.Syntax.{literal_in, sides_in};
ghost use Rattle.packing.specs.Packing.{PackableLiteral};
ghost use Rattle.table.specs.Held.{Entries};
ghost use Rattle.terms.specs.Lines.{sides_sorted};

use crate::is_term;
use syntax::Literal;
use table::sort_of;
use tableau::{Relation, Sort};

// Check 8, where n terms are made.
pub fn are_made(n: usize, literal: Literal) -> bool
    ensures { (table : Table) → length table ≡ n
        → result ≡ every (term_or_name table) (sides literal.relation) (sides_in literal) }
{
    is_term(n, literal.left) && is_term(n, literal.right)
}

// Check 9.
pub fn have_sorts(terms: &[u64; table::NUMBERS], literal: Literal) -> bool
    requires entries { (table : Table) × Entries table terms.now }
    requires packable_literal { PackableLiteral (literal_in literal) }
    ensures { (table : Table) → Entries table terms.now
        → result ≡ sides_sorted table literal.relation (sides_in literal) }
{
    let left = sort_of(terms, literal.left);
    let right = sort_of(terms, literal.right);
    match literal.relation {
        Relation::In | Relation::Ni => left == Sort::Reference && right == Sort::Region,
        Relation::Eq | Relation::Ne => left == right,
        Relation::Le | Relation::Nl => left == Sort::Class && right == Sort::Class,
    }
}
