// The rules of a heap that is read where it was written: rdh and rdm.
ghost use Rattle.std.specs.Prelude.{None};
ghost use Rattle.tableau.specs.declared.Rule.{Rule};
ghost use Rattle.tableau.specs.Terms.{Table};
ghost use Rattle.packing.specs.Packing.{Small};
ghost use Rattle.rules.specs.Answer.{HeldBy, SearchableBy, Concludes};

use packing::TermView;
use rules::outcome::{Outcome, literal};
use rules::{outcome, searches};
use tableau::{Operator, Reason, Relation, TermNumber};

// t = rea(wri(h,u,f,v),u,f) gives t eq v.
pub fn rdh(t: TermNumber, terms: &[u64; table::NUMBERS]) -> Result<Outcome, Reason>
    requires held_by { (table : Table) × HeldBy terms.now table }
    requires small { Small t.0 }
    ensures { Concludes (HeldBy terms.now) Rule.Rdh None None t.0 0 result }
{
    let TermView::Rea(z, k, g) = table::view(terms, t) else {
        return Err(Reason::NeedNotMet);
    };
    let TermView::Wri(_, u, f, v) = table::view(terms, z) else {
        return Err(Reason::NeedNotMet);
    };
    if (u, f) != (k, g) {
        return Err(Reason::NeedNotMet);
    }
    Ok(outcome::adds_one(literal(Relation::Eq, t, v)))
}

// t = rea(wri(h,u,f,v),y,g) gives u eq y, f eq g ∥ t eq rea(h,y,g).
pub fn rdm(
    t: TermNumber,
    terms: &[u64; table::NUMBERS],
    chains: &[u16; table::LINKS],
) -> Result<Outcome, Reason>
    requires searchable_by { (table : Table) × SearchableBy terms.now chains.now table }
    requires small { Small t.0 }
    ensures { Concludes (SearchableBy terms.now chains.now) Rule.Rdm None None t.0 0 result }
{
    let TermView::Rea(z, y, g) = table::view(terms, t) else {
        return Err(Reason::NeedNotMet);
    };
    let TermView::Wri(h, u, f, _) = table::view(terms, z) else {
        return Err(Reason::NeedNotMet);
    };
    let v = searches::on_three(terms, chains, Operator::Rea, h, y, g)?;
    Ok(outcome::splits_two_one(
        literal(Relation::Eq, u, y),
        literal(Relation::Eq, f, g),
        literal(Relation::Eq, t, v),
    ))
}
