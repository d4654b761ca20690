// The rule that a line names, on the literals at its places and the terms of its fields: checks 12
// to 14.
#![tactic(auto)]

ghost use Rattle.tableau.specs.Fields.{rule_fields};
ghost use Rattle.tableau.specs.Terms.{Table};
ghost use Rattle.table.specs.Held.{Searchable};
ghost use Rattle.syntax.specs.Syntax.{ThirdFits, third_in, NoClause};
ghost use Rattle.syntax.specs.declared.ThirdField.{ThirdField as Third};
ghost use Rattle.packing.specs.Packing.{SmallLiteral};
ghost use Rattle.conclusions.specs.Infers.{Given, Infers};

use equality_rules::{closing, equality, order};
use heap_rules::{images, reads};
use packing::LiteralView;
use rules::outcome::Outcome;
use syntax::{Step, ThirdField};
use tableau::{Freshness, Reason, Rule, TermNumber};

// What a rule asks of the whole branch: is w fresh, does the branch contradict itself? No rule
// looks at an answer that it did not ask for.
#[derive(Clone, Copy)]
pub struct Told {
    pub fresh: Freshness,
    pub contradicted: bool,
}

// The rules whose t is a term; `rep` and `cla` do not come here, and are refused. One match tells
// the rule: closures would only say it twice.
fn by_rule(
    rule: Rule,
    p: LiteralView,
    q: LiteralView,
    t: TermNumber,
    w: TermNumber,
    told: Told,
    terms: &[u64; table::NUMBERS],
    chains: &[u16; table::LINKS],
) -> Result<Outcome, Reason>
    requires searchable { (table : Table) × Searchable table terms.now chains.now }
    requires small_literal { SmallLiteral p × SmallLiteral q × Given rule t.0 w.0
        × ThirdFits (rule_fields rule).t (Third.Term t) }
    ensures { Infers rule p q t.0 w.0 told terms.now chains.now result }
{
    match rule {
        Rule::Eqr => set_rules::eqr(p, q, terms),
        Rule::Eql => set_rules::eql(p, q, terms),
        Rule::Ext => set_rules::ext(p, w, told.fresh, terms),
        Rule::Cpe => set_rules::cpe(p, terms),
        Rule::Cpi => set_rules::cpi(p, q, t, terms),
        Rule::Cue => set_rules::cue(p, terms),
        Rule::Cui => set_rules::cui(p, t, terms),
        Rule::Dfe => set_rules::dfe(p, terms),
        Rule::Dfi => set_rules::dfi(p, q, t, terms),
        Rule::Sge => member_rules::sge(p, terms),
        Rule::Sgi => member_rules::sgi(t, terms, chains),
        Rule::Cut => member_rules::cut(t, w),
        Rule::All => member_rules::all(p, terms, chains),
        Rule::Nul => member_rules::nul(p, terms, chains),
        Rule::Sep => set_rules::sep(p, q),
        Rule::Img => images::img(p, t, terms, chains),
        Rule::Wit => images::wit(p, w, told.fresh, terms, chains),
        Rule::Ref => equality::reflexive(t),
        Rule::Sym => equality::sym(p),
        Rule::Trn => equality::trn(p, q),
        Rule::Sub => equality::sub(p, t, w, terms),
        Rule::Ler => order::ler(t),
        Rule::Let => order::transitive(p, q),
        Rule::Lea => order::lea(p, q),
        Rule::Rdh => reads::rdh(t, terms),
        Rule::Rdm => reads::rdm(t, terms, chains),
        Rule::Cls => closing::cls(p, q),
        Rule::Emp => closing::emp(p, terms),
        Rule::Fin => images::fin(p, terms, chains),
        Rule::Bck => closing::bck(told.contradicted),
        Rule::Rep | Rule::Cla => Err(Reason::NeedNotMet),
    }
}

// Every rule but `cla`, which does not come here either: its alternatives are the clause's.
pub fn conclude(
    step: Step,
    p: LiteralView,
    q: LiteralView,
    told: Told,
    terms: &[u64; table::NUMBERS],
    chains: &[u16; table::LINKS],
) -> Result<Outcome, Reason>
    requires searchable { (table : Table) × Searchable table terms.now chains.now }
    requires small_literal { SmallLiteral p × SmallLiteral q
        × Given step.rule (third_in step.t) step.w.0
        × ThirdFits (rule_fields step.rule).t step.t × NoClause step.t }
    ensures { Infers step.rule p q (third_in step.t) step.w.0 told terms.now chains.now result }
{
    match step.t {
        ThirdField::Side(side) => equality::rep(p, q, side),
        ThirdField::Term(t) => by_rule(step.rule, p, q, t, step.w, told, terms, chains),
        ThirdField::Clause(_) => Err(Reason::NeedNotMet),
    }
}
