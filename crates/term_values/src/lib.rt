// The values of terms in a heap that was read.
#![tactic(auto)]

ghost use Rattle.std.specs.Prelude.{◌≡◌, ◌≤◌};
ghost use Rattle.tableau.specs.Terms.{max_terms};
ghost use Rattle.packing.specs.Packing.{Small};
ghost use Rattle.term_values.specs.Values.{number_at, row_of};

use regions::ROW;
use table::NUMBERS;
use tableau::TermNumber;

pub mod literals;
pub mod operations;

// A row for each of the numbers 0 to 600.
pub const ROWS: usize = 615424;

// numbers[t] is the number of the term t: that of a reference, a field or a class, or a region's
// mask. Where t is a heap value, its row stands at t * ROW.
#[derive(Drop)]
pub struct TermValues {
    pub numbers: [u64; NUMBERS],
    pub rows: [u8; ROWS],
}

impl TermValues {
    fn number(&self, term: TermNumber) -> u64
        requires { Small term.0 }
        ensures { result ≡ number_at self.now.numbers term.0 }
    {
        self.numbers[term.0]
    }

    fn row(&self, term: TermNumber) -> &[u8]
        requires { term.0 ≤ max_terms }
        ensures { result.now ≡ row_of self.now.rows term.0 }
    {
        let from = term.0 * ROW;
        &self.rows[from..from + ROW]
    }
}
