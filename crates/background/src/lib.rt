// `bck`: does a branch contradict its own equalities and its order of classes? Terms are put into
// one block where it follows that they are equal, and blocks into an order, until nothing changes.
#![tactic(auto)]

mod literals;
mod order;

ghost use Rattle.std.specs.Prelude.{◌≡◌, length, map};
ghost use Rattle.tableau.specs.Saturation as specification;
ghost use Rattle.tableau.specs.Terms.{Table};
ghost use Rattle.packing.specs.Packing.{unpack_literal};
ghost use Rattle.table.specs.Held.{Entries};
ghost use Rattle.background.specs.Closure.{Ordered, Rounded};

use class_order::Rows;
use congruence::join_congruent;
use literals::join_literals;
use order::{antisymmetry, contradicts};
use partition::Partition;
use table::NUMBERS;

// The order's part of a round: None where it joined blocks; else it says whether the branch
// contradicts itself. It is a function of its own so that its rows, which are large, are cleared
// only where no terms were joined before.
fn by_order(
    blocks: &mut Partition,
    terms: &[u64; NUMBERS],
    n: usize,
    branch: &[u32],
) -> Option<bool>
    requires { (table : Table) × Entries table terms.now × (length table ≡ n) }
    ensures { Ordered blocks.old blocks.new terms.now n branch.now result }
{
    let mut rows = Rows::empty();
    rows.fill(blocks, terms, n, branch);
    if antisymmetry(blocks, &rows, branch) {
        None
    } else {
        Some(contradicts(blocks, &rows, branch))
    }
}

// One round: None where it joined blocks; else there are none left to join, and it says whether the
// branch contradicts itself. The eq literals are joined in each round, though only the first finds
// sides apart, so that a round's promise asks nothing of those before. `again` is set from the
// second one on: most branches need no second, and the search for congruent terms would cost them
// more than it saves. Its rows are large, and stay out of the loop over the lines.
#[inline(never)]
fn round(
    blocks: &mut Partition,
    terms: &[u64; NUMBERS],
    n: usize,
    branch: &[u32],
    again: bool,
) -> Option<bool>
    requires { (table : Table) × Entries table terms.now × (length table ≡ n) }
    ensures { Rounded blocks.old blocks.new terms.now n (map unpack_literal branch.now) result }
{
    join_literals(blocks, branch);
    if join_congruent(blocks, terms, n, again) {
        return None;
    }
    by_order(blocks, terms, n, branch)
}

// Does the branch contradict itself, over the table of the n packed terms?
pub fn contradicted(terms: &[u64; NUMBERS], n: usize, branch: &[u32]) -> bool
    requires { (table : Table) × Entries table terms.now × (length table ≡ n) }
    ensures { (table : Table) → Entries table terms.now → length table ≡ n
        → result ≡ specification.contradicted table (map unpack_literal branch.now) }
{
    let mut blocks = Partition::singletons();
    let mut again = false;
    loop {
        if let Some(answer) = round(&mut blocks, terms, n, branch, again) {
            return answer;
        }
        again = true;
    }
}
