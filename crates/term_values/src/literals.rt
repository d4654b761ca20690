// Is a literal true, by the numbers and rows of its sides?
ghost use Rattle.std.specs.Prelude.{◌≡◌, ◌%◌, ◌≤◌, get_or};
ghost use Rattle.tableau.specs.Terms.{Table, at, sort_of, max_terms};
ghost use Rattle.tableau.specs.Meaning.{FiniteHeap, Values};
ghost use Rattle.evaluation.specs.Evaluation.{is_true};
ghost use Rattle.packing.specs.Packing.{Small, unpack_literal, literal_of, left_of, right_of};
ghost use Rattle.table.specs.Held.{Entries};
ghost use Rattle.mentions.specs.Mentions.{bit_at};
ghost use Rattle.regions.specs.Shown.{same_shown};
ghost use Rattle.term_values.specs.Values.{number_at, row_of};
ghost use Rattle.term_values.specs.Literals.{literal_test, IsAssumption, Evaluable};

use crate::TermValues;
use packing::LiteralView;
use regions::{HeapTables, has, same_rows};
use table::{NUMBERS, has_sort};
use tableau::{Sort, TermNumber};

impl TermValues {
    // `in`
    fn is_member(&self, m: TermNumber, n: TermNumber) -> bool
        requires { Small m.0 × Small n.0 }
        ensures { result ≡ bit_at (number_at self.now.numbers n.0)
            (number_at self.now.numbers m.0 % 64) }
    {
        has(self.number(n), self.number(m) % 64)
    }

    // `le`
    fn is_under(&self, tables: &HeapTables, m: TermNumber, n: TermNumber) -> bool
        requires { Small m.0 × Small n.0 }
        ensures { result
            ≡ bit_at (get_or tables.now.under (number_at self.now.numbers m.0 % 16) 0)
            (number_at self.now.numbers n.0 % 64) }
    {
        let class = (self.number(m) % 16) as usize;
        has(tables.under[class], self.number(n) % 64)
    }

    // `eq`: heap values by their rows, all others by their numbers.
    fn is_equal(&self, terms: &[u64; NUMBERS], m: TermNumber, n: TermNumber) -> bool
        requires entries { (table : Table) × Entries table terms.now }
        requires m_le_max_terms { (m.0 ≤ max_terms) × (n.0 ≤ max_terms) }
        ensures { (table : Table) → Entries table terms.now
            → result ≡ same_shown (sort_of (at table m.0))
            (number_at self.now.numbers m.0) (number_at self.now.numbers n.0)
            (row_of self.now.rows m.0) (row_of self.now.rows n.0) }
    {
        if has_sort(terms, Sort::Heap, m) {
            same_rows(self.row(m), self.row(n))
        } else {
            self.number(m) == self.number(n)
        }
    }

    fn test(&self, literal: LiteralView, terms: &[u64; NUMBERS], tables: &HeapTables) -> bool
        requires entries { (table : Table) × Entries table terms.now }
        requires sides { (left_of literal ≤ max_terms) × (right_of literal ≤ max_terms) }
        ensures { (table : Table) → Entries table terms.now
            → result
            ≡ literal_test tables.now table self.now.numbers self.now.rows (literal_of literal) }
    {
        match literal {
            LiteralView::In(m, n) => self.is_member(m, n),
            LiteralView::Ni(m, n) => !self.is_member(m, n),
            LiteralView::Eq(m, n) => self.is_equal(terms, m, n),
            LiteralView::Ne(m, n) => !self.is_equal(terms, m, n),
            LiteralView::Le(m, n) => self.is_under(tables, m, n),
            LiteralView::Nl(m, n) => !self.is_under(tables, m, n),
        }
    }

    // Is a packed literal true?
    pub fn is_true(&self, code: u32, terms: &[u64; NUMBERS], tables: &HeapTables) -> bool
        requires { (table : Table) × Entries table terms.now
            × IsAssumption table (unpack_literal code) }
        ensures { (H : FiniteHeap) (ρ : Values H) (table : Table) → Entries table terms.now
            → IsAssumption table (unpack_literal code)
            → Evaluable H ρ table tables.now self.now.numbers self.now.rows
            → result ≡ is_true ρ (at table) (unpack_literal code) }
    {
        self.test(packing::literals::view(code), terms, tables)
    }
}
