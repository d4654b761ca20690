// A C line.
ghost use Rattle.std.specs.Prelude.{true, [], ◌∷◌, ◌≡◌, length, Some};
ghost use Rattle.tableau.specs.Basics.{lookup};
ghost use Rattle.tableau.specs.File.{letters, in_order};
ghost use Rattle.tableau.specs.Terms.{Table, Clauses};
ghost use Rattle.table.specs.Held.{Entries};
ghost use Rattle.mentions.specs.Mentions.{MentionRows};
ghost use Rattle.freshness.specs.Prefixes.{PrefixRows};
ghost use Rattle.clauses.specs.Held.{ClausesHeld};
ghost use Rattle.line_checks.specs.Checks.{Ready, DisjunctDone};

use crate::literal_line;
use growth::{LineEffect, Progress};
use lines::LineFields;
use tableau::{ClauseNumber, Letter, Reason};
use tree::TreeView;

// Checks 4, 6, 8, 9 and 21.
pub fn check(
    progress: Progress,
    tree: TreeView,
    f: LineFields,
    terms: &[u64; table::NUMBERS],
    rows: &[u64; mentions::WORDS],
    prefix: &mut [u64; freshness::PREFIX_WORDS],
    clauses: &mut [u32; clauses::WORDS],
) -> Result<LineEffect, Reason>
    requires entries { (table : Table) × Entries table terms.now
        × (length table ≡ progress.counts.terms) }
    requires ready { Ready progress tree.branch.now tree.waiting.now
        × ((C : Clauses) × ClausesHeld C clauses.old progress.clauses) }
    requires letter { (lookup letters (f.letter ∷ []) ≡ Some Letter.C)
        × (in_order progress.letter Letter.C ≡ true) }
    ensures { (table : Table) (C : Clauses) → Entries table terms.now
        → length table ≡ progress.counts.terms
        → MentionRows table rows.now → ClausesHeld C clauses.old progress.clauses
        → PrefixRows table C tree.entry.branch.now prefix.old progress.noted
        → DisjunctDone table C progress tree.entry.branch.now tree.entry.waiting.now f
        clauses.new prefix.new result }
{
    let n = progress.counts.terms;
    let code = literal_line::read(Letter::C, f, terms, n)?;
    let k = ClauseNumber(f.c);
    if !clauses::takes(&*clauses, progress.clauses, k) {
        return Err(Reason::BadClause);
    }
    clauses::join(clauses, progress.clauses, k, code);
    freshness::note_clause(prefix, rows, n, code);
    Ok(LineEffect {
        progress: progress.after_disjunct(k),
        change: tree.unchanged(),
    })
}
