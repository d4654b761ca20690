// The rules of equality: ref, sym, trn, sub, rep.
ghost use Rattle.std.specs.Prelude.{None, Some};
ghost use Rattle.tableau.specs.declared.Rule.{Rule};
ghost use Rattle.tableau.specs.Terms.{Table};
ghost use Rattle.packing.specs.Packing.{literal_of, Small, SmallLiteral};
ghost use Rattle.rules.specs.Answer.{Anywhere, HeldBy, Concludes};

use packing::LiteralView;
use packing::term_codes::congruent;
use rules::outcome;
use rules::outcome::{Outcome, literal};
use tableau::{Reason, Relation, Side, TermNumber};

// The rule `ref`: any term t gives t eq t.
pub fn reflexive(t: TermNumber) -> Result<Outcome, Reason>
    requires { Small t.0 }
    ensures { Concludes Anywhere Rule.Ref None None t.0 0 result }
{
    Ok(outcome::adds_one(literal(Relation::Eq, t, t)))
}

// a eq b gives b eq a, or a ne b gives b ne a.
pub fn sym(p: LiteralView) -> Result<Outcome, Reason>
    requires { SmallLiteral p }
    ensures { Concludes Anywhere Rule.Sym (Some (literal_of p)) None 0 0 result }
{
    let (LiteralView::Eq(a, b) | LiteralView::Ne(a, b)) = p else {
        return Err(Reason::NeedNotMet);
    };
    Ok(outcome::adds_one(literal(p.relation(), b, a)))
}

// a eq b; b eq c gives a eq c.
pub fn trn(p: LiteralView, q: LiteralView) -> Result<Outcome, Reason>
    requires { SmallLiteral p × SmallLiteral q }
    ensures { Concludes Anywhere Rule.Trn (Some (literal_of p)) (Some (literal_of q)) 0 0 result }
{
    let (LiteralView::Eq(a, b), LiteralView::Eq(x, c)) = (p, q) else {
        return Err(Reason::NeedNotMet);
    };
    if b != x {
        return Err(Reason::NeedNotMet);
    }
    Ok(outcome::adds_one(literal(Relation::Eq, a, c)))
}

// a eq b; t, w have one word, whose arguments are terms and not a name, and has at least one; at
// each argument they agree, or t has a and w has b: gives t eq w.
pub fn sub(
    p: LiteralView,
    t: TermNumber,
    w: TermNumber,
    terms: &[u64; table::NUMBERS],
) -> Result<Outcome, Reason>
    requires held_by { (table : Table) × HeldBy terms.now table }
    requires small { Small t.0 × Small w.0 }
    ensures { Concludes (HeldBy terms.now) Rule.Sub (Some (literal_of p)) None t.0 w.0 result }
{
    let LiteralView::Eq(a, b) = p else {
        return Err(Reason::NeedNotMet);
    };
    if !congruent(a, b, table::packed(terms, t), table::packed(terms, w)) {
        return Err(Reason::NeedNotMet);
    }
    Ok(outcome::adds_one(literal(Relation::Eq, t, w)))
}

// any literal; a eq b; side t (1 left, 2 right) is a: gives p's literal with b on that side.
pub fn rep(p: LiteralView, q: LiteralView, side: Side) -> Result<Outcome, Reason>
    requires { SmallLiteral p × SmallLiteral q }
    ensures { Concludes Anywhere
        Rule.Rep (Some (literal_of p)) (Some (literal_of q)) side.0 0 result }
{
    let LiteralView::Eq(a, b) = q else {
        return Err(Reason::NeedNotMet);
    };
    let (m, n) = (p.left(), p.right());
    match side.0 {
        1 if m == a => Ok(outcome::adds_one(literal(p.relation(), b, n))),
        2 if n == a => Ok(outcome::adds_one(literal(p.relation(), m, b))),
        _ => Err(Reason::NeedNotMet),
    }
}
