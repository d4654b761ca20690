// An S line.
ghost use Rattle.std.specs.Prelude.{[], ◌∷◌, ◌≡◌, Some};
ghost use Rattle.tableau.specs.declared.Letter.{Letter};
ghost use Rattle.tableau.specs.Basics.{lookup};
ghost use Rattle.tableau.specs.File.{letters};
ghost use Rattle.tableau.specs.Terms.{Table, Clauses};
ghost use Rattle.clauses.specs.Held.{ClausesHeld};
ghost use Rattle.syntax.specs.Syntax.{WellTaken};
ghost use Rattle.terms.specs.Arrays.{arrays, Held};
ghost use Rattle.freshness.specs.Prefixes.{PrefixRows};
ghost use Rattle.line_checks.specs.Checks.{Ready, StepTakes, LineDone};

use clauses::span_of;
use growth::{LineEffect, Progress, grow, split_clause};
use lines::LineFields;
use steps::{Inference, ask, infer};
use syntax::Step;
use tableau::Reason;
use tree::TreeView;

// Checks 8, 9 and 11 to 16 of a line that is taken apart, on an open tree.
fn take(
    progress: Progress,
    tree: TreeView,
    step: Step,
    terms: &[u64; table::NUMBERS],
    chains: &[u16; table::LINKS],
    rows: &[u64; mentions::WORDS],
    prefix: &mut [u64; freshness::PREFIX_WORDS],
    clauses: &[u32; clauses::WORDS],
) -> Result<LineEffect, Reason>
    requires held { (table : Table)
        × Held table (arrays terms.now chains.now rows.now) progress.counts.terms }
    requires ready { Ready progress tree.branch.now tree.waiting.now × WellTaken step
        × ((C : Clauses) × ClausesHeld C clauses.now progress.clauses) }
    ensures { (table : Table) (C : Clauses)
        → Held table (arrays terms.now chains.now rows.now) progress.counts.terms
        → ClausesHeld C clauses.now progress.clauses
        → PrefixRows table C tree.entry.branch.now prefix.old progress.noted
        → StepTakes table C progress tree.entry.branch.now tree.entry.waiting.now step
        clauses.now prefix.new result }
{
    let n = progress.counts.terms;
    let asked = ask(step, tree.branch, progress.noted, terms, rows, prefix, n);
    let inference = infer(
        step,
        asked.told,
        tree.branch,
        progress.clauses,
        terms,
        chains,
        n,
    )?;
    let next = progress.after_step(step.rule, asked.noted);
    match inference {
        Inference::ByRule(outcome) => Ok(next.grown(tree, grow(tree, outcome)?)),
        Inference::ByClause(k) => {
            Ok(next.changed(split_clause(tree, clauses, span_of(clauses, k))?))
        }
    }
}

// Checks 4 to 6, then those above.
pub fn check(
    progress: Progress,
    tree: TreeView,
    f: LineFields,
    terms: &[u64; table::NUMBERS],
    chains: &[u16; table::LINKS],
    rows: &[u64; mentions::WORDS],
    prefix: &mut [u64; freshness::PREFIX_WORDS],
    clauses: &[u32; clauses::WORDS],
) -> Result<LineEffect, Reason>
    requires held { (table : Table)
        × Held table (arrays terms.now chains.now rows.now) progress.counts.terms }
    requires ready { Ready progress tree.branch.now tree.waiting.now
        × ((C : Clauses) × ClausesHeld C clauses.now progress.clauses) }
    requires letter { lookup letters (f.letter ∷ []) ≡ Some Letter.S }
    ensures { (table : Table) (C : Clauses)
        → Held table (arrays terms.now chains.now rows.now) progress.counts.terms
        → ClausesHeld C clauses.now progress.clauses
        → PrefixRows table C tree.entry.branch.now prefix.old progress.noted
        → LineDone table C progress tree.entry.branch.now tree.entry.waiting.now f
        (arrays terms.now chains.now rows.now) clauses.now prefix.new result }
{
    let row = words::rule_of(f.word).ok_or(Reason::UnknownWord)?;
    if progress.closed {
        return Err(Reason::TreeClosed);
    }
    let step = parsing::step_of(row, f)?;
    take(progress, tree, step, terms, chains, rows, prefix, clauses)
}
