// The rules of the order of classes: ler, let, lea.
ghost use Rattle.std.specs.Prelude.{None, Some};
ghost use Rattle.tableau.specs.declared.Rule.{Rule};
ghost use Rattle.packing.specs.Packing.{literal_of, Small, SmallLiteral};
ghost use Rattle.rules.specs.Answer.{Anywhere, Concludes};

use packing::LiteralView;
use rules::outcome;
use rules::outcome::{Outcome, literal};
use tableau::{Reason, Relation, TermNumber};

// class t gives t le t.
pub fn ler(t: TermNumber) -> Result<Outcome, Reason>
    requires { Small t.0 }
    ensures { Concludes Anywhere Rule.Ler None None t.0 0 result }
{
    Ok(outcome::adds_one(literal(Relation::Le, t, t)))
}

// The rule `let`: a le b; b le c gives a le c.
pub fn transitive(p: LiteralView, q: LiteralView) -> Result<Outcome, Reason>
    requires { SmallLiteral p × SmallLiteral q }
    ensures { Concludes Anywhere Rule.Let (Some (literal_of p)) (Some (literal_of q)) 0 0 result }
{
    let (LiteralView::Le(a, b), LiteralView::Le(x, c)) = (p, q) else {
        return Err(Reason::NeedNotMet);
    };
    if b != x {
        return Err(Reason::NeedNotMet);
    }
    Ok(outcome::adds_one(literal(Relation::Le, a, c)))
}

// a le b; b le a gives a eq b.
pub fn lea(p: LiteralView, q: LiteralView) -> Result<Outcome, Reason>
    requires { SmallLiteral p }
    ensures { Concludes Anywhere Rule.Lea (Some (literal_of p)) (Some (literal_of q)) 0 0 result }
{
    let (LiteralView::Le(a, b), LiteralView::Le(x, y)) = (p, q) else {
        return Err(Reason::NeedNotMet);
    };
    if (b, a) != (x, y) {
        return Err(Reason::NeedNotMet);
    }
    Ok(outcome::adds_one(literal(Relation::Eq, a, b)))
}
