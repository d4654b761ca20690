// The search for a term that a rule would add, by its operator and arguments: its number, or
// refusal 14 where it is not made.
ghost use Rattle.tableau.specs.Basics.{four};
ghost use Rattle.tableau.specs.Terms.{Table, apply};
ghost use Rattle.packing.specs.Packing.{Small};
ghost use Rattle.rules.specs.Answer.{SearchableBy, Finds};

use syntax::{Arguments, Term};
use tableau::{Operator, Reason, TermNumber};

// An operator on three terms; on fewer, the others are 0.
pub fn on_three(
    terms: &[u64; table::NUMBERS],
    chains: &[u16; table::LINKS],
    operator: Operator,
    a: TermNumber,
    b: TermNumber,
    c: TermNumber,
) -> Result<TermNumber, Reason>
    requires searchable_by { (table : Table) × SearchableBy terms.now chains.now table }
    requires small { Small a.0 × Small b.0 × Small c.0 }
    ensures { Finds terms.now chains.now (apply operator (four a.0 b.0 c.0 0)) result }
{
    let arguments = Arguments {
        a,
        b,
        c,
        d: TermNumber(0),
    };
    table::find(terms, chains, Term::Apply(operator, arguments)).ok_or(Reason::TermNotMade)
}

pub fn on_one(
    terms: &[u64; table::NUMBERS],
    chains: &[u16; table::LINKS],
    operator: Operator,
    a: TermNumber,
) -> Result<TermNumber, Reason>
    requires searchable_by { (table : Table) × SearchableBy terms.now chains.now table }
    requires small { Small a.0 }
    ensures { Finds terms.now chains.now (apply operator (four a.0 0 0 0)) result }
{
    on_three(terms, chains, operator, a, TermNumber(0), TermNumber(0))
}

pub fn on_none(
    terms: &[u64; table::NUMBERS],
    chains: &[u16; table::LINKS],
    operator: Operator,
) -> Result<TermNumber, Reason>
    requires { (table : Table) × SearchableBy terms.now chains.now table }
    ensures { Finds terms.now chains.now (apply operator (four 0 0 0 0)) result }
{
    on_one(terms, chains, operator, TermNumber(0))
}
