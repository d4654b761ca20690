// The checks 8, 9 and 11 of an S line, by the mask of the fields that its rule uses.
ghost use Rattle.std.specs.Prelude.{◌≡◌, true, ◌||◌, List, eqb, length};
ghost use Rattle.std.specs.Int.Bits.{bit_and};
ghost use Rattle.tableau.specs.Basics.{every};
ghost use Rattle.tableau.specs.Fields.{rule_uses};
ghost use Rattle.tableau.specs.Terms.{Table, Literal, Clauses};
ghost use Rattle.tableau.specs.Tree.{on_branch, is_there};
ghost use Rattle.tableau.specs.Reply.{is_term, term_or_name, of_sort};
ghost use Rattle.syntax.specs.Syntax.{NoClause, step_fields, WellTaken};
ghost use Rattle.table.specs.Held.{Entries};
ghost use Rattle.packing.specs.Packing.{Small};
ghost use Rattle.steps.specs.Checks.{HasSorts};
ghost use Rattle.steps.specs.Asking.{TermsNamed};

use syntax::{Mask, Step, ThirdField};
use tableau::{Rule, Sort, TermNumber};
use terms::is_term;
use tree::Tree;

// What is said of a field, where it is used: one whose bit is not set is not asked for.
fn if_used(used: Mask, bit: u8, holds: bool) -> bool
    ensures { result ≡ (eqb (bit_and used.0 bit) 0 || holds) }
{
    used.0 & bit == 0 || holds
}

// Check 8: "a term field names no term made so far". A side or a clause number names none.
pub fn terms_made(n: usize, step: Step) -> bool
    requires { WellTaken step }
    ensures { (table : Table) → length table ≡ n
        → result ≡ every (term_or_name table) (rule_uses step.rule) (step_fields step) }
{
    let w_made = if_used(step.used, Mask::W, is_term(n, step.w));
    let ThirdField::Term(t) = step.t else {
        return w_made;
    };
    if_used(step.used, Mask::T, is_term(n, t)) && w_made
}

// Check 9: "wrong sort in .. `cut` or `ler`".
fn has_sorts(terms: &[u64; table::NUMBERS], rule: Rule, t: TermNumber, w: TermNumber) -> bool
    requires entries { (table : Table) × Entries table terms.now }
    requires small { Small t.0 × Small w.0 }
    ensures { (table : Table) → Entries table terms.now → HasSorts table rule t.0 w.0 result }
{
    match rule {
        Rule::Cut => {
            table::has_sort(terms, Sort::Reference, t) && table::has_sort(terms, Sort::Region, w)
        }
        Rule::Ler => table::has_sort(terms, Sort::Class, t),
        _ => true,
    }
}

pub fn sorts_fit(terms: &[u64; table::NUMBERS], step: Step) -> bool
    requires entries { (table : Table) × Entries table terms.now × TermsNamed table step }
    requires well_taken { WellTaken step }
    ensures { (table : Table) → Entries table terms.now
        → result ≡ every (of_sort table) (rule_uses step.rule) (step_fields step) }
{
    let ThirdField::Term(t) = step.t else {
        return true;
    };
    has_sorts(terms, step.rule, t, step.w)
}

// Check 11 where t is no clause: "a place used is not on the branch".
pub fn places_there(len: usize, step: Step) -> bool
    requires { WellTaken step × NoClause step.t }
    ensures { (C : Clauses) (B : List Literal) → length B ≡ len
        → result ≡ every (is_there C B) (rule_uses step.rule) (step_fields step) }
{
    if_used(step.used, Mask::P, Tree::has_place(len, step.p))
        && if_used(step.used, Mask::Q, Tree::has_place(len, step.q))
}
