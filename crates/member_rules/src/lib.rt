// The rules of singletons, of `all` and `nul`, and the cut. Each looks at the terms that its row
// names and searches for those that it adds: refusal 12 where what the row needs isn't so, then 14
// where a term to be added is not made.
#![tactic(auto)]

ghost use Rattle.std.specs.Prelude.{None, Some};
ghost use Rattle.tableau.specs.declared.Rule.{Rule};
ghost use Rattle.tableau.specs.Terms.{Table};
ghost use Rattle.packing.specs.Packing.{Small, SmallLiteral, literal_of};
ghost use Rattle.rules.specs.Answer.{Anywhere, HeldBy, SearchableBy, Concludes};

use packing::{LiteralView, TermView};
use rules::outcome;
use rules::outcome::{Outcome, literal};
use rules::searches::on_none;
use tableau::{Operator, Reason, Relation, TermNumber};

// u in sin(v) gives u eq v.
pub fn sge(p: LiteralView, terms: &[u64; table::NUMBERS]) -> Result<Outcome, Reason>
    requires held_by { (table : Table) × HeldBy terms.now table }
    requires small_literal { SmallLiteral p }
    ensures { Concludes (HeldBy terms.now) Rule.Sge (Some (literal_of p)) None 0 0 result }
{
    let LiteralView::In(u, x) = p else {
        return Err(Reason::NeedNotMet);
    };
    let TermView::Sin(v) = table::view(terms, x) else {
        return Err(Reason::NeedNotMet);
    };
    Ok(outcome::adds_one(literal(Relation::Eq, u, v)))
}

// t = sin(u) gives u ni all ∥ u in t.
pub fn sgi(
    t: TermNumber,
    terms: &[u64; table::NUMBERS],
    chains: &[u16; table::LINKS],
) -> Result<Outcome, Reason>
    requires searchable_by { (table : Table) × SearchableBy terms.now chains.now table }
    requires small { Small t.0 }
    ensures { Concludes (SearchableBy terms.now chains.now) Rule.Sgi None None t.0 0 result }
{
    let TermView::Sin(u) = table::view(terms, t) else {
        return Err(Reason::NeedNotMet);
    };
    let a = on_none(terms, chains, Operator::All)?;
    Ok(outcome::splits(literal(Relation::Ni, u, a), literal(Relation::In, u, t)))
}

// reference t, region w gives t in w ∥ t ni w. Their sorts are asked before, by check 9.
pub fn cut(t: TermNumber, w: TermNumber) -> Result<Outcome, Reason>
    requires { Small t.0 × Small w.0 }
    ensures { Concludes Anywhere Rule.Cut None None t.0 w.0 result }
{
    Ok(outcome::splits(literal(Relation::In, t, w), literal(Relation::Ni, t, w)))
}

// u in r gives u in all.
pub fn all(
    p: LiteralView,
    terms: &[u64; table::NUMBERS],
    chains: &[u16; table::LINKS],
) -> Result<Outcome, Reason>
    requires searchable_by { (table : Table) × SearchableBy terms.now chains.now table }
    requires small_literal { SmallLiteral p }
    ensures { Concludes (SearchableBy terms.now chains.now)
        Rule.All (Some (literal_of p)) None 0 0 result }
{
    let LiteralView::In(u, _) = p else {
        return Err(Reason::NeedNotMet);
    };
    let a = on_none(terms, chains, Operator::All)?;
    Ok(outcome::adds_one(literal(Relation::In, u, a)))
}

// u in r gives u ne nul.
pub fn nul(
    p: LiteralView,
    terms: &[u64; table::NUMBERS],
    chains: &[u16; table::LINKS],
) -> Result<Outcome, Reason>
    requires searchable_by { (table : Table) × SearchableBy terms.now chains.now table }
    requires small_literal { SmallLiteral p }
    ensures { Concludes (SearchableBy terms.now chains.now)
        Rule.Nul (Some (literal_of p)) None 0 0 result }
{
    let LiteralView::In(u, _) = p else {
        return Err(Reason::NeedNotMet);
    };
    let n = on_none(terms, chains, Operator::Nul)?;
    Ok(outcome::adds_one(literal(Relation::Ne, u, n)))
}
