// The number or the row of an operation, from those of its arguments.
ghost use Rattle.std.specs.Prelude.{◌≡◌, suc, ◌%◌, ◌<◌, ◌≤◌, get_or};
ghost use Rattle.tableau.specs.Terms.{max_terms};
ghost use Rattle.regions.specs.Masks.{row_length, place, entry, image_mask};
ghost use Rattle.term_values.specs.Values.{row_of, view_arguments, AllBelow, operation_number, Written, Computed};

use crate::{ROWS, TermValues};
use packing::TermView;
use regions::{HeapTables, ROW, difference, image, intersection, single, union};
use tableau::TermNumber;

// The place of a field of a reference in a row. Numbers are read modulo the sizes of a heap, so
// that none needs a test before it is an index.
fn place(x: u64, f: u64) -> usize
    ensures { (result ≡ place (x % 64) (f % 16)) × (result < row_length) }
{
    (x % 64) as usize * 16 + (f % 16) as usize
}

// The row of a term becomes that of the heap with one byte changed.
fn write_row(rows: &mut [u8; ROWS], heap: TermNumber, term: TermNumber, at: usize, value: u8)
    requires { (heap.0 < term.0) × (term.0 ≤ max_terms) × (at < row_length) }
    ensures { Written rows.old rows.new heap.0 term.0 at value }
{
    let from = heap.0 * ROW;
    let to = term.0 * ROW;
    rows.copy_within(from..from + ROW, to);
    rows[to + at] = value;
}

impl TermValues {
    // `rea`
    fn read(&self, heap: TermNumber, x: u64, f: u64) -> u64
        requires { heap.0 ≤ max_terms }
        ensures { result ≡ entry (row_of self.now.rows heap.0) (x % 64) (f % 16) }
    {
        u64::from(self.rows[heap.0 * ROW + place(x, f)])
    }

    // `img`
    fn image(&self, tables: &HeapTables, heap: TermNumber, region: u64, f: u64) -> u64
        requires { heap.0 ≤ max_terms }
        ensures { result ≡ image_mask (row_of self.now.rows heap.0) region
            (get_or tables.now.having (f % 16) 0) (f % 16) tables.now.all }
    {
        let field = (f % 16) as usize;
        image(
            self.row(heap),
            region,
            tables.having[field],
            field,
            tables.all,
        )
    }

    // The number of an operation; 0 for a heap value and for a variable.
    fn operation_number(&self, view: TermView, tables: &HeapTables) -> u64
        requires { AllBelow (suc max_terms) (view_arguments view) }
        ensures { result ≡ operation_number tables.now view self.now.numbers self.now.rows }
    {
        match view {
            TermView::Rea(h, x, f) => self.read(h, self.number(x), self.number(f)),
            TermView::All => tables.all,
            TermView::Cup(r, s) => union(self.number(r), self.number(s)),
            TermView::Cap(r, s) => intersection(self.number(r), self.number(s)),
            TermView::Dif(r, s) => difference(self.number(r), self.number(s)),
            TermView::Sin(x) => single(self.number(x), tables.all),
            TermView::Img(h, r, f) => self.image(tables, h, self.number(r), self.number(f)),
            TermView::Typ(x) => u64::from(tables.typ[(self.number(x) % 64) as usize]),
            TermView::Dty(f) => u64::from(tables.dty[(self.number(f) % 16) as usize]),
            TermView::Variable(..) | TermView::Nul | TermView::Emp | TermView::Wri(..) => 0,
        }
    }

    // The number and the row of the operation t. Of a variable nothing is known here.
    pub fn operation(&mut self, view: TermView, tables: &HeapTables, t: TermNumber)
        requires { AllBelow t.0 (view_arguments view) × (t.0 ≤ max_terms) }
        ensures { Computed tables.now view self.old.numbers self.old.rows
            self.new.numbers self.new.rows t.0 }
    {
        let number = self.operation_number(view, tables);
        // `wri` alone has a row
        if let TermView::Wri(heap, x, f, v) = view {
            let at = place(self.number(x), self.number(f));
            let value = (self.number(v) % 64) as u8;
            write_row(&mut self.rows, heap, t, at, value);
        }
        self.numbers[t.0] = number;
    }
}
