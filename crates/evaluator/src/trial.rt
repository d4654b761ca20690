// A heap file, once the checker file's lines have passed: it is read, and its heap is tried against
// the assumptions.
ghost use Rattle.std.specs.Prelude.{◌≡◌, refl, leb, length};
ghost use Rattle.tableau.specs.File.{max_digits, max_bytes};
ghost use Rattle.tableau.specs.Reply.{State};
ghost use Rattle.evaluation.specs.Facts.{Facts, sizes as sizesGiven};
ghost use Rattle.evaluation.specs.Heaps.{is_order};
ghost use Rattle.evaluation.specs.Evaluation.{on_heap, read_heap};
ghost use Rattle.evaluation.proofs.Passable.{Passable};
ghost use Rattle.facts.specs.Keys.{sizes_of, FactsHeld};
ghost use Rattle.evaluation_reply.specs.Evaluation.{evaluation_record};
ghost use Rattle.evaluator.specs.Trial.{StateHeld};

use crate::assumptions::Assumptions;
use crate::values::term_values;
use checker::FILE_BYTES;
use evaluation_reply::{Evaluation, no_refusal, refused};
use facts::reading::read_facts;
use facts::{FACTS, Sizes, StoredFact};
use heap_tables::order::is_order;
use heap_tables::tables::read_tables;
use table::NUMBERS;
use tableau::{Reason, Refusal};
use term_values::{ROWS, TermValues};

// The number of the heap file in a reply.
const HEAP_FILE: usize = 2;

impl Assumptions<'_> {
    // All lines passed, and there is one at least: check 20, then the assumptions.
    fn try_heap(self, facts: &[StoredFact], sizes: Sizes) -> Evaluation
        requires state_held { (σ : State) × StateHeld σ self }
        requires facts_held { (g : Facts) × FactsHeld g facts.now × Passable g
            × (sizesGiven g ≡ sizes_of sizes) }
        ensures { (σ : State) (g : Facts) → StateHeld σ self.entry → FactsHeld g facts.now
            → Passable g → sizesGiven g ≡ sizes_of sizes
            → evaluation_record result ≡ on_heap σ g (is_order g) refl }
    {
        let tables = read_tables(facts);
        if !is_order(&tables, sizes.classes) {
            return refused(Reason::NotAnOrder, HEAP_FILE, 0);
        }
        let mut values = TermValues {
            numbers: [0; NUMBERS],
            rows: [0; ROWS],
        };
        term_values(self.count, self.terms, facts, &tables, &mut values);
        // the T lines come first, then the A lines, then the C lines
        if let Some(i) = self.first_false(&tables, &values) {
            return no_refusal(self.count + i + 1);
        }
        match self.first_false_clause(&tables, &values) {
            Some(lines) => no_refusal(self.count + self.branch.len() + lines),
            None => no_refusal(0),
        }
    }

    // "then the heap file"
    pub fn read_heap(self, heap: &[u8]) -> Evaluation
        requires { (σ : State) × StateHeld σ self }
        ensures { (σ : State) → StateHeld σ self.entry
            → evaluation_record result
            ≡ read_heap max_digits σ (leb (length heap.now) max_bytes) heap.now }
    {
        if FILE_BYTES < heap.len() {
            return refused(Reason::TooLong, HEAP_FILE, 0);
        }
        let mut facts = [StoredFact { key: 0, value: 0 }; FACTS];
        match read_facts(heap, &mut facts) {
            Err(Refusal { reason, line }) => refused(reason, HEAP_FILE, line),
            Ok(read) if read.count == 0 => refused(Reason::LetterOrder, HEAP_FILE, 1),
            Ok(read) => self.try_heap(&facts[..read.count], read.sizes),
        }
    }
}
