// What the lines of a checker file assume, once they have passed: literals on the branch, and
// clauses. Whether a heap makes them true.
ghost use Rattle.std.specs.Prelude.{◌+◌, ◌≤◌};
ghost use Rattle.tableau.specs.Terms.{Table, Clauses, disjuncts};
ghost use Rattle.tableau.specs.Reply.{max_clause_lines};
ghost use Rattle.clauses.specs.Held.{codes_at, ClausesHeld};
ghost use Rattle.table.specs.Held.{Entries};
ghost use Rattle.evaluator.specs.Assumptions.{literals_of, AllAssumptions};
ghost use Rattle.evaluator.specs.Assumptions.{FirstFalse, AnyIs, FirstFalseClause};

use clauses::{Span, span_of};
use regions::HeapTables;
use table::NUMBERS;
use tableau::ClauseNumber;
use term_values::TermValues;

// The table of terms and how many there are, the codes of the branch, the clauses and the number of
// the last.
#[derive(Clone, Copy)]
pub struct Assumptions<'a> {
    pub terms: &'a [u64; NUMBERS],
    pub count: usize,
    pub branch: &'a [u32],
    pub clauses: &'a [u32; clauses::WORDS],
    pub last: usize,
}

impl Assumptions<'_> {
    // How many literals of the branch stand before the first that is false, if one is.
    pub fn first_false(self, tables: &HeapTables, values: &TermValues) -> Option<usize>
        requires { (table : Table) × Entries table self.terms.now
            × AllAssumptions table (literals_of self.branch.now) }
        ensures { FirstFalse (literals_of self.entry.branch.now) self.entry.terms.now
            values.now tables.now result }
    {
        self.branch
            .iter()
            .position(|code| !values.is_true(*code, self.terms, tables))
    }

    // Whether one of the literals of a clause is true.
    fn any_true(self, span: Span, tables: &HeapTables, values: &TermValues) -> bool
        requires entries { (table : Table) × Entries table self.terms.now
            × AllAssumptions table (literals_of (codes_at self.clauses.now span.from span.count)) }
        requires count_bound { span.from + span.count ≤ max_clause_lines }
        ensures { AnyIs (literals_of (codes_at self.entry.clauses.now span.from span.count))
            self.entry.terms.now values.now tables.now result }
    {
        span.codes(self.clauses)
            .iter()
            .any(|code| values.is_true(*code, self.terms, tables))
    }

    // How many C lines there are up to the last of the first clause with no true literal, if there
    // is one.
    pub fn first_false_clause(self, tables: &HeapTables, values: &TermValues) -> Option<usize>
        requires { (table : Table) × (C : Clauses) × Entries table self.terms.now
            × AllAssumptions table (disjuncts C) × ClausesHeld C self.clauses.now self.last }
        ensures { (C : Clauses) → ClausesHeld C self.entry.clauses.now self.entry.last
            → FirstFalseClause C self.entry.terms.now values.now tables.now result }
    {
        for k in 1..=self.last {
            let span = span_of(self.clauses, ClauseNumber(k));
            if !self.any_true(span, tables, values) {
                return Some(span.from + span.count);
            }
        }
        None
    }
}
