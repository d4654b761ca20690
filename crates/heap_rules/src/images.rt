// The rules of images: img, wit and fin.
ghost use Rattle.std.specs.Prelude.{None, Some};
ghost use Rattle.tableau.specs.declared.Rule.{Rule};
ghost use Rattle.tableau.specs.Terms.{Table};
ghost use Rattle.packing.specs.Packing.{literal_of, Small, SmallLiteral};
ghost use Rattle.rules.specs.Answer.{SearchableBy, Concludes, ConcludesFresh};
ghost use Rattle.heap_rules.specs.Accesses.{Accesses};

use packing::{LiteralView, TermView};
use rules::outcome::{Outcome, literal};
use rules::{outcome, searches};
use tableau::{Freshness, Operator, Reason, Relation, TermNumber};

// The terms of an access to the field f of u in the heap h: typ(u), dty(f) and rea(h,u,f).
#[derive(Clone, Copy)]
struct Access {
    class: TermNumber,
    owner: TermNumber,
    value: TermNumber,
}

fn find_access(
    terms: &[u64; table::NUMBERS],
    chains: &[u16; table::LINKS],
    h: TermNumber,
    u: TermNumber,
    f: TermNumber,
) -> Result<Access, Reason>
    requires searchable_by { (table : Table) × SearchableBy terms.now chains.now table }
    requires small { Small h.0 × Small u.0 × Small f.0 }
    ensures { Accesses terms.now chains.now h.0 u.0 f.0 result }
{
    let class = searches::on_one(terms, chains, Operator::Typ, u)?;
    let owner = searches::on_one(terms, chains, Operator::Dty, f)?;
    let value = searches::on_three(terms, chains, Operator::Rea, h, u, f)?;
    Ok(Access {
        class,
        owner,
        value,
    })
}

// u in r; t = img(h,r,f) gives typ(u) nl dty(f) ∥ rea(h,u,f) ni all ∥ rea(h,u,f) in t.
pub fn img(
    p: LiteralView,
    t: TermNumber,
    terms: &[u64; table::NUMBERS],
    chains: &[u16; table::LINKS],
) -> Result<Outcome, Reason>
    requires searchable_by { (table : Table) × SearchableBy terms.now chains.now table }
    requires small_literal { SmallLiteral p × Small t.0 }
    ensures { Concludes (SearchableBy terms.now chains.now)
        Rule.Img (Some (literal_of p)) None t.0 0 result }
{
    let LiteralView::In(u, r) = p else {
        return Err(Reason::NeedNotMet);
    };
    let TermView::Img(h, s, f) = table::view(terms, t) else {
        return Err(Reason::NeedNotMet);
    };
    if r != s {
        return Err(Reason::NeedNotMet);
    }
    let access = find_access(terms, chains, h, u, f)?;
    let a = searches::on_none(terms, chains, Operator::All)?;
    Ok(outcome::splits_three(
        literal(Relation::Nl, access.class, access.owner),
        literal(Relation::Ni, access.value, a),
        literal(Relation::In, access.value, t),
    ))
}

// u in img(h,r,f); w fresh gives w in r, typ(w) le dty(f), rea(h,w,f) eq u.
pub fn wit(
    p: LiteralView,
    w: TermNumber,
    fresh: Freshness,
    terms: &[u64; table::NUMBERS],
    chains: &[u16; table::LINKS],
) -> Result<Outcome, Reason>
    requires searchable_by { (table : Table) × SearchableBy terms.now chains.now table }
    requires small_literal { SmallLiteral p × Small w.0 }
    ensures { ConcludesFresh (SearchableBy terms.now chains.now) fresh
        Rule.Wit (Some (literal_of p)) None 0 w.0 result }
{
    let LiteralView::In(u, s) = p else {
        return Err(Reason::NeedNotMet);
    };
    let TermView::Img(h, r, f) = table::view(terms, s) else {
        return Err(Reason::NeedNotMet);
    };
    if let Freshness::NotFresh(place) = fresh {
        return Err(Reason::NotFresh(place));
    }
    let access = find_access(terms, chains, h, w, f)?;
    Ok(outcome::adds_three(
        literal(Relation::In, w, r),
        literal(Relation::Le, access.class, access.owner),
        literal(Relation::Eq, access.value, u),
    ))
}

// cup(r,i) eq i with i = img(h,r,f) gives cup(i,r) eq r.
pub fn fin(
    p: LiteralView,
    terms: &[u64; table::NUMBERS],
    chains: &[u16; table::LINKS],
) -> Result<Outcome, Reason>
    requires searchable_by { (table : Table) × SearchableBy terms.now chains.now table }
    requires small_literal { SmallLiteral p }
    ensures { Concludes (SearchableBy terms.now chains.now)
        Rule.Fin (Some (literal_of p)) None 0 0 result }
{
    let LiteralView::Eq(union, image) = p else {
        return Err(Reason::NeedNotMet);
    };
    let TermView::Cup(r, i) = table::view(terms, union) else {
        return Err(Reason::NeedNotMet);
    };
    let TermView::Img(_, s, _) = table::view(terms, i) else {
        return Err(Reason::NeedNotMet);
    };
    if (i, r) != (image, s) {
        return Err(Reason::NeedNotMet);
    }
    let turned = searches::on_three(terms, chains, Operator::Cup, i, r, TermNumber(0))?;
    Ok(outcome::adds_one(literal(Relation::Eq, turned, r)))
}
