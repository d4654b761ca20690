// The rules of equal regions, of intersections, unions and differences, and `sep`. Each looks at
// the terms that its row names; where what the row needs isn't so, the answer is refusal 12.
#![tactic(auto)]

ghost use Rattle.std.specs.Prelude.{◌≡◌, None, Some};
ghost use Rattle.tableau.specs.declared.Rule.{Rule};
ghost use Rattle.tableau.specs.Terms.{Table};
ghost use Rattle.packing.specs.Packing.{Small, SmallLiteral, literal_of};
ghost use Rattle.rules.specs.Answer.{Anywhere, HeldBy, Concludes, ConcludesFresh};
ghost use Rattle.set_rules.specs.Regions.{are_regions};

use packing::{LiteralView, TermView};
use rules::outcome;
use rules::outcome::{Outcome, literal};
use tableau::{Freshness, Reason, Relation, Sort, TermNumber};

// Are both terms regions?
fn are_regions(terms: &[u64; table::NUMBERS], m: TermNumber, n: TermNumber) -> bool
    requires held_by { (table : Table) × HeldBy terms.now table }
    requires small { Small m.0 × Small n.0 }
    ensures { (table : Table) → HeldBy terms.now table → result ≡ are_regions table m.0 n.0 }
{
    table::has_sort(terms, Sort::Region, m) && table::has_sort(terms, Sort::Region, n)
}

// r eq s; u in r gives u in s.
pub fn eqr(p: LiteralView, q: LiteralView, terms: &[u64; table::NUMBERS]) -> Result<Outcome, Reason>
    requires held_by { (table : Table) × HeldBy terms.now table }
    requires small_literal { SmallLiteral p × SmallLiteral q }
    ensures { Concludes (HeldBy terms.now)
        Rule.Eqr (Some (literal_of p)) (Some (literal_of q)) 0 0 result }
{
    let (LiteralView::Eq(r, s), LiteralView::In(u, x)) = (p, q) else {
        return Err(Reason::NeedNotMet);
    };
    if !are_regions(terms, r, s) || r != x {
        return Err(Reason::NeedNotMet);
    }
    Ok(outcome::adds_one(literal(Relation::In, u, s)))
}

// r eq s; u in s gives u in r.
pub fn eql(p: LiteralView, q: LiteralView, terms: &[u64; table::NUMBERS]) -> Result<Outcome, Reason>
    requires held_by { (table : Table) × HeldBy terms.now table }
    requires small_literal { SmallLiteral p × SmallLiteral q }
    ensures { Concludes (HeldBy terms.now)
        Rule.Eql (Some (literal_of p)) (Some (literal_of q)) 0 0 result }
{
    let (LiteralView::Eq(r, s), LiteralView::In(u, x)) = (p, q) else {
        return Err(Reason::NeedNotMet);
    };
    if !are_regions(terms, r, s) || s != x {
        return Err(Reason::NeedNotMet);
    }
    Ok(outcome::adds_one(literal(Relation::In, u, r)))
}

// r ne s; w fresh gives w in r, w ni s ∥ w ni r, w in s.
pub fn ext(
    p: LiteralView,
    w: TermNumber,
    fresh: Freshness,
    terms: &[u64; table::NUMBERS],
) -> Result<Outcome, Reason>
    requires held_by { (table : Table) × HeldBy terms.now table }
    requires small_literal { SmallLiteral p × Small w.0 }
    ensures { ConcludesFresh (HeldBy terms.now) fresh
        Rule.Ext (Some (literal_of p)) None 0 w.0 result }
{
    let LiteralView::Ne(r, s) = p else {
        return Err(Reason::NeedNotMet);
    };
    if !are_regions(terms, r, s) {
        return Err(Reason::NeedNotMet);
    }
    if let Freshness::NotFresh(place) = fresh {
        return Err(Reason::NotFresh(place));
    }
    Ok(outcome::splits_two_two(
        literal(Relation::In, w, r),
        literal(Relation::Ni, w, s),
        literal(Relation::Ni, w, r),
        literal(Relation::In, w, s),
    ))
}

// u in cap(r,s) gives u in r, u in s.
pub fn cpe(p: LiteralView, terms: &[u64; table::NUMBERS]) -> Result<Outcome, Reason>
    requires held_by { (table : Table) × HeldBy terms.now table }
    requires small_literal { SmallLiteral p }
    ensures { Concludes (HeldBy terms.now) Rule.Cpe (Some (literal_of p)) None 0 0 result }
{
    let LiteralView::In(u, x) = p else {
        return Err(Reason::NeedNotMet);
    };
    let TermView::Cap(r, s) = table::view(terms, x) else {
        return Err(Reason::NeedNotMet);
    };
    Ok(outcome::adds_two(literal(Relation::In, u, r), literal(Relation::In, u, s)))
}

// u in r; u in s; t = cap(r,s) gives u in t.
pub fn cpi(
    p: LiteralView,
    q: LiteralView,
    t: TermNumber,
    terms: &[u64; table::NUMBERS],
) -> Result<Outcome, Reason>
    requires held_by { (table : Table) × HeldBy terms.now table }
    requires small_literal { SmallLiteral p × SmallLiteral q × Small t.0 }
    ensures { Concludes (HeldBy terms.now)
        Rule.Cpi (Some (literal_of p)) (Some (literal_of q)) t.0 0 result }
{
    let (LiteralView::In(u, r), LiteralView::In(v, s)) = (p, q) else {
        return Err(Reason::NeedNotMet);
    };
    let TermView::Cap(a, b) = table::view(terms, t) else {
        return Err(Reason::NeedNotMet);
    };
    if (u, r, s) != (v, a, b) {
        return Err(Reason::NeedNotMet);
    }
    Ok(outcome::adds_one(literal(Relation::In, u, t)))
}

// u in cup(r,s) gives u in r ∥ u in s.
pub fn cue(p: LiteralView, terms: &[u64; table::NUMBERS]) -> Result<Outcome, Reason>
    requires held_by { (table : Table) × HeldBy terms.now table }
    requires small_literal { SmallLiteral p }
    ensures { Concludes (HeldBy terms.now) Rule.Cue (Some (literal_of p)) None 0 0 result }
{
    let LiteralView::In(u, x) = p else {
        return Err(Reason::NeedNotMet);
    };
    let TermView::Cup(r, s) = table::view(terms, x) else {
        return Err(Reason::NeedNotMet);
    };
    Ok(outcome::splits(literal(Relation::In, u, r), literal(Relation::In, u, s)))
}

// u in r or u in s; t = cup(r,s) gives u in t.
pub fn cui(p: LiteralView, t: TermNumber, terms: &[u64; table::NUMBERS]) -> Result<Outcome, Reason>
    requires held_by { (table : Table) × HeldBy terms.now table }
    requires small_literal { SmallLiteral p × Small t.0 }
    ensures { Concludes (HeldBy terms.now) Rule.Cui (Some (literal_of p)) None t.0 0 result }
{
    let LiteralView::In(u, x) = p else {
        return Err(Reason::NeedNotMet);
    };
    let TermView::Cup(r, s) = table::view(terms, t) else {
        return Err(Reason::NeedNotMet);
    };
    if x != r && x != s {
        return Err(Reason::NeedNotMet);
    }
    Ok(outcome::adds_one(literal(Relation::In, u, t)))
}

// u in dif(r,s) gives u in r, u ni s.
pub fn dfe(p: LiteralView, terms: &[u64; table::NUMBERS]) -> Result<Outcome, Reason>
    requires held_by { (table : Table) × HeldBy terms.now table }
    requires small_literal { SmallLiteral p }
    ensures { Concludes (HeldBy terms.now) Rule.Dfe (Some (literal_of p)) None 0 0 result }
{
    let LiteralView::In(u, x) = p else {
        return Err(Reason::NeedNotMet);
    };
    let TermView::Dif(r, s) = table::view(terms, x) else {
        return Err(Reason::NeedNotMet);
    };
    Ok(outcome::adds_two(literal(Relation::In, u, r), literal(Relation::Ni, u, s)))
}

// u in r; u ni s; t = dif(r,s) gives u in t.
pub fn dfi(
    p: LiteralView,
    q: LiteralView,
    t: TermNumber,
    terms: &[u64; table::NUMBERS],
) -> Result<Outcome, Reason>
    requires held_by { (table : Table) × HeldBy terms.now table }
    requires small_literal { SmallLiteral p × SmallLiteral q × Small t.0 }
    ensures { Concludes (HeldBy terms.now)
        Rule.Dfi (Some (literal_of p)) (Some (literal_of q)) t.0 0 result }
{
    let (LiteralView::In(u, r), LiteralView::Ni(v, s)) = (p, q) else {
        return Err(Reason::NeedNotMet);
    };
    let TermView::Dif(a, b) = table::view(terms, t) else {
        return Err(Reason::NeedNotMet);
    };
    if (u, r, s) != (v, a, b) {
        return Err(Reason::NeedNotMet);
    }
    Ok(outcome::adds_one(literal(Relation::In, u, t)))
}

// u in r; v ni r gives u ne v.
pub fn sep(p: LiteralView, q: LiteralView) -> Result<Outcome, Reason>
    requires { SmallLiteral p × SmallLiteral q }
    ensures { Concludes Anywhere Rule.Sep (Some (literal_of p)) (Some (literal_of q)) 0 0 result }
{
    let (LiteralView::In(u, r), LiteralView::Ni(v, s)) = (p, q) else {
        return Err(Reason::NeedNotMet);
    };
    if r != s {
        return Err(Reason::NeedNotMet);
    }
    Ok(outcome::adds_one(literal(Relation::Ne, u, v)))
}
