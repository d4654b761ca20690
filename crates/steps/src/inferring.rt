// An S line that was taken apart, as far as the alternatives that it adds.
ghost use Rattle.std.specs.Prelude.{◌≡◌, map, length, IfOk};
ghost use Rattle.tableau.specs.Terms.{Table, Clauses, last_clause};
ghost use Rattle.tableau.specs.Reply.{step_line};
ghost use Rattle.tableau.specs.Tree.{alternatives};
ghost use Rattle.tableau.proofs.ClauseLaws.{InSequence};
ghost use Rattle.syntax.specs.Syntax.{step_fields, WellTaken};
ghost use Rattle.packing.specs.Packing.{unpack_literal};
ghost use Rattle.table.specs.Held.{Searchable};
ghost use Rattle.tree.specs.State.{AreCodes};
ghost use Rattle.steps.specs.Asking.{Tells, TermsNamed};
ghost use Rattle.steps.specs.Inference.{RoomFor, inferred_in};

use crate::checks;
use crate::reading::literal;
use conclusions::{Told, conclude};
use rules::outcome::Outcome;
use syntax::{Step, ThirdField};
use tableau::{ClauseNumber, Reason};

// What a step adds: the outcome of its rule, or, of `cla`, the literals of a clause, which is
// named.
#[derive(Clone, Copy)]
pub enum Inference {
    ByRule(Outcome),
    ByClause(ClauseNumber),
}

// Checks 11 to 14 of a line that passed those before; `last` is the number of the last clause.
fn added(
    step: Step,
    told: Told,
    branch: &[u32],
    last: usize,
    terms: &[u64; table::NUMBERS],
    chains: &[u16; table::LINKS],
) -> Result<Inference, Reason>
    requires searchable { (table : Table) × Searchable table terms.now chains.now
        × TermsNamed table step }
    requires branch { AreCodes branch.now × WellTaken step }
    ensures room_for { IfOk result (RoomFor last) }
    ensures result_value { (table : Table) (C : Clauses) → Searchable table terms.now chains.now
        → InSequence C → last_clause C ≡ last
        → Tells table C (map unpack_literal branch.now) step told
        → inferred_in C result
        ≡ alternatives table C (map unpack_literal branch.now) step.rule (step_fields step) }
{
    // `cla`, "a `cla` on no clause". It meets no other check.
    if let ThirdField::Clause(k) = step.t {
        if !clauses::is_clause(last, k) {
            return Err(Reason::NoSuchPlace);
        }
        return Ok(Inference::ByClause(k));
    }
    if !checks::places_there(branch.len(), step) {
        return Err(Reason::NoSuchPlace);
    }
    let p = literal(branch, step.p);
    let q = literal(branch, step.q);
    let outcome = conclude(step, p, q, told, terms, chains)?;
    Ok(Inference::ByRule(outcome))
}

// Checks 8, 9 and 11 to 14, where n terms are made, and what the rule asks of the whole branch was
// asked.
pub fn infer(
    step: Step,
    told: Told,
    branch: &[u32],
    last: usize,
    terms: &[u64; table::NUMBERS],
    chains: &[u16; table::LINKS],
    n: usize,
) -> Result<Inference, Reason>
    requires searchable { (table : Table) × Searchable table terms.now chains.now
        × (length table ≡ n) }
    requires branch { AreCodes branch.now × WellTaken step }
    ensures room_for { IfOk result (RoomFor last) }
    ensures result_value { (table : Table) (C : Clauses) → Searchable table terms.now chains.now
        → length table ≡ n → InSequence C → last_clause C ≡ last
        → Tells table C (map unpack_literal branch.now) step told
        → inferred_in C result
        ≡ step_line table C (map unpack_literal branch.now) step.rule (step_fields step) }
{
    if !checks::terms_made(n, step) {
        return Err(Reason::NoSuchTerm);
    }
    if !checks::sorts_fit(terms, step) {
        return Err(Reason::WrongSort);
    }
    added(step, told, branch, last, terms, chains)
}
