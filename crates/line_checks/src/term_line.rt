// A T line.
ghost use Rattle.std.specs.Prelude.{true, [], ◌∷◌, ◌≡◌, ◌<◌, Some};
ghost use Rattle.tableau.specs.declared.Letter.{Letter};
ghost use Rattle.tableau.specs.Basics.{lookup};
ghost use Rattle.tableau.specs.File.{letters, in_order};
ghost use Rattle.tableau.specs.Terms.{Table, Clauses};
ghost use Rattle.terms.specs.Arrays.{arrays, Held};
ghost use Rattle.running.specs.Running.{number_limit};
ghost use Rattle.line_checks.specs.Checks.{Ready, TermDone};

use growth::{LineEffect, Progress};
use lines::LineFields;
use tableau::Reason;
use terms::make_term;
use tree::TreeView;

// Checks 4 and 6 to 10.
pub fn check(
    progress: Progress,
    tree: TreeView,
    f: LineFields,
    terms: &mut [u64; table::NUMBERS],
    chains: &mut [u16; table::LINKS],
    rows: &mut [u64; mentions::WORDS],
) -> Result<LineEffect, Reason>
    requires held { (table : Table)
        × Held table (arrays terms.old chains.old rows.old) progress.counts.terms }
    requires ready { Ready progress tree.branch.now tree.waiting.now × (f.a < number_limit) }
    requires letter { (lookup letters (f.letter ∷ []) ≡ Some Letter.T)
        × (in_order progress.letter Letter.T ≡ true) }
    ensures { (table : Table) (C : Clauses)
        → Held table (arrays terms.old chains.old rows.old) progress.counts.terms
        → TermDone table C progress tree.entry.branch.now tree.entry.waiting.now f
        (arrays terms.new chains.new rows.new) result }
{
    let row = words::word_of(f.word).ok_or(Reason::UnknownWord)?;
    let term = parsing::term_of(row, f)?;
    make_term(terms, chains, rows, progress.counts.terms, term)?;
    Ok(LineEffect {
        progress: progress.after_term(),
        change: tree.unchanged(),
    })
}
