// An A line.
ghost use Rattle.std.specs.Prelude.{true, [], ◌∷◌, ◌≡◌, length, Some};
ghost use Rattle.tableau.specs.Basics.{lookup};
ghost use Rattle.tableau.specs.File.{letters, in_order};
ghost use Rattle.tableau.specs.Terms.{Table, Clauses};
ghost use Rattle.table.specs.Held.{Entries};
ghost use Rattle.line_checks.specs.Checks.{Ready, AssumptionDone};

use crate::literal_line;
use growth::{LineEffect, Progress};
use lines::LineFields;
use tableau::{Letter, Reason};
use tree::{Alternative, TreeView};

// Checks 4, 6, 8, 9 and 15.
pub fn check(
    progress: Progress,
    tree: TreeView,
    f: LineFields,
    terms: &[u64; table::NUMBERS],
) -> Result<LineEffect, Reason>
    requires entries { (table : Table) × Entries table terms.now
        × (length table ≡ progress.counts.terms) }
    requires ready { Ready progress tree.branch.now tree.waiting.now }
    requires letter { (lookup letters (f.letter ∷ []) ≡ Some Letter.A)
        × (in_order progress.letter Letter.A ≡ true) }
    ensures { (table : Table) (C : Clauses) → Entries table terms.now
        → length table ≡ progress.counts.terms
        → AssumptionDone table C progress tree.entry.branch.now tree.entry.waiting.now f result }
{
    let code = literal_line::read(Letter::A, f, terms, progress.counts.terms)?;
    let change = tree.extend(Alternative::one(code))?;
    Ok(progress.after_literal().changed(change))
}
