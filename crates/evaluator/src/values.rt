// The values of all terms in a heap that was read.
ghost use Rattle.std.specs.Prelude.{◌+◌, ◌≤◌};
ghost use Rattle.tableau.specs.Terms.{Table, at, max_terms};
ghost use Rattle.tableau.proofs.WellFormed.{WellFormed};
ghost use Rattle.table.specs.Held.{Entries};
ghost use Rattle.evaluator.specs.Values.{TermsShown};

use facts::StoredFact;
use packing::TermView;
use regions::HeapTables;
use table::{NUMBERS, view};
use tableau::TermNumber;
use term_values::TermValues;
use variables::read_variable;

// A further term, by those before it.
fn term_value(
    t: TermNumber,
    terms: &[u64; NUMBERS],
    facts: &[StoredFact],
    tables: &HeapTables,
    values: &mut TermValues,
)
    requires entries { (table : Table) × Entries table terms.now × WellFormed (at table) }
    requires few { t.0 ≤ max_terms }
    requires terms_shown { TermsShown terms.now facts.now tables.now values.old t.0 }
    ensures { TermsShown terms.now facts.now tables.now values.new (t.0 + 1) }
{
    match view(terms, t) {
        TermView::Variable(sort, name) => read_variable(facts, sort, name, values, t),
        operation => values.operation(operation, tables, t),
    }
}

pub fn term_values(
    n: usize,
    terms: &[u64; NUMBERS],
    facts: &[StoredFact],
    tables: &HeapTables,
    values: &mut TermValues,
)
    requires entries { (table : Table) × Entries table terms.now × WellFormed (at table) }
    requires few { n ≤ max_terms }
    ensures { TermsShown terms.now facts.now tables.now values.new (n + 1) }
{
    for t in 0..=n {
        term_value(TermNumber(t), terms, facts, tables, values);
    }
}
