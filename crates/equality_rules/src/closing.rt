// The rules that close: cls, emp and bck.
ghost use Rattle.std.specs.Prelude.{◌≡◌, None, Some};
ghost use Rattle.tableau.specs.declared.Rule.{Rule};
ghost use Rattle.tableau.specs.Terms.{Table};
ghost use Rattle.packing.specs.Packing.{literal_of, SmallLiteral};
ghost use Rattle.rules.specs.Answer.{Anywhere, HeldBy, Concludes};
ghost use Rattle.equality_rules.specs.Closing.{closes_if};

use packing::{LiteralView, TermView};
use rules::outcome::Outcome;
use tableau::Reason;

// a in b; a ni b, or a eq b; a ne b, or a le b; a nl b: closes.
pub fn cls(p: LiteralView, q: LiteralView) -> Result<Outcome, Reason>
    ensures { Concludes Anywhere Rule.Cls (Some (literal_of p)) (Some (literal_of q)) 0 0 result }
{
    let ((LiteralView::In(a, b), LiteralView::Ni(x, y))
    | (LiteralView::Eq(a, b), LiteralView::Ne(x, y))
    | (LiteralView::Le(a, b), LiteralView::Nl(x, y))) = (p, q) else {
        return Err(Reason::NeedNotMet);
    };
    if (a, b) != (x, y) {
        return Err(Reason::NeedNotMet);
    }
    Ok(Outcome::Closes)
}

// u in emp closes.
pub fn emp(p: LiteralView, terms: &[u64; table::NUMBERS]) -> Result<Outcome, Reason>
    requires held_by { (table : Table) × HeldBy terms.now table }
    requires small_literal { SmallLiteral p }
    ensures { Concludes (HeldBy terms.now) Rule.Emp (Some (literal_of p)) None 0 0 result }
{
    let LiteralView::In(_, r) = p else {
        return Err(Reason::NeedNotMet);
    };
    let TermView::Emp = table::view(terms, r) else {
        return Err(Reason::NeedNotMet);
    };
    Ok(Outcome::Closes)
}

// A branch that its equalities and order contradict closes.
pub fn bck(contradicted: bool) -> Result<Outcome, Reason>
    ensures { result ≡ closes_if contradicted }
{
    if contradicted {
        Ok(Outcome::Closes)
    } else {
        Err(Reason::NeedNotMet)
    }
}
