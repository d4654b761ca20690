// The checks of a line that is read, in the order of their numbers, and what it makes of the table
// and of the tree.
#![tactic(auto)]

ghost use Rattle.std.specs.Prelude.{◌≡◌, ◌+◌, ◌<◌, IfErr};
ghost use Rattle.tableau.specs.Terms.{Table, Clauses};
ghost use Rattle.clauses.specs.Held.{ClausesHeld};
ghost use Rattle.terms.specs.Arrays.{arrays, Held};
ghost use Rattle.freshness.specs.Prefixes.{PrefixRows};
ghost use Rattle.running.specs.Running.{number_limit};
ghost use Rattle.line_checks.specs.Checks.{Ready, LineDone, unnumbered};

use growth::{LineEffect, Progress};
use lines::LineFields;
use tableau::{Letter, Reason, Refusal};
use tree::TreeView;

mod assumption_line;
mod clause_line;
mod literal_line;
mod step_line;
mod term_line;

// Check 2 of the letter, check 3, then those of the line's letter.
fn check_fields(
    progress: Progress,
    tree: TreeView,
    f: LineFields,
    terms: &mut [u64; table::NUMBERS],
    chains: &mut [u16; table::LINKS],
    rows: &mut [u64; mentions::WORDS],
    prefix: &mut [u64; freshness::PREFIX_WORDS],
    clauses: &mut [u32; clauses::WORDS],
) -> Result<LineEffect, Reason>
    requires held { (table : Table)
        × Held table (arrays terms.old chains.old rows.old) progress.counts.terms }
    requires ready { Ready progress tree.branch.now tree.waiting.now × (f.a < number_limit)
        × ((C : Clauses) × ClausesHeld C clauses.old progress.clauses) }
    ensures { (table : Table) (C : Clauses)
        → Held table (arrays terms.old chains.old rows.old) progress.counts.terms
        → ClausesHeld C clauses.old progress.clauses
        → PrefixRows table C tree.entry.branch.now prefix.old progress.noted
        → LineDone table C progress tree.entry.branch.now tree.entry.waiting.now f
        (arrays terms.new chains.new rows.new) clauses.new prefix.new result }
{
    let letter = words::letter_of(f.letter).ok_or(Reason::BadShape)?;
    // An S line is in order behind any line. Most lines are S lines: asked for here, they cost one
    // test of the letter.
    if let Letter::S = letter {
        return step_line::check(
            progress, tree, f, &*terms, &*chains, &*rows, prefix, &*clauses,
        );
    }
    if letter < progress.letter {
        return Err(Reason::LetterOrder);
    }
    match letter {
        Letter::T => term_line::check(progress, tree, f, terms, chains, rows),
        Letter::A => assumption_line::check(progress, tree, f, &*terms),
        _ => clause_line::check(progress, tree, f, &*terms, &*rows, prefix, clauses),
    }
}

// The checks of a line. A refusal has its number.
pub fn check_line(
    progress: Progress,
    tree: TreeView,
    f: LineFields,
    terms: &mut [u64; table::NUMBERS],
    chains: &mut [u16; table::LINKS],
    rows: &mut [u64; mentions::WORDS],
    prefix: &mut [u64; freshness::PREFIX_WORDS],
    clauses: &mut [u32; clauses::WORDS],
) -> Result<LineEffect, Refusal>
    requires held { (table : Table)
        × Held table (arrays terms.old chains.old rows.old) progress.counts.terms }
    requires ready { Ready progress tree.branch.now tree.waiting.now × (f.a < number_limit)
        × ((C : Clauses) × ClausesHeld C clauses.old progress.clauses) }
    ensures line { IfErr result (λ r. r.line ≡ progress.lines + 1) }
    ensures done { (table : Table) (C : Clauses)
        → Held table (arrays terms.old chains.old rows.old) progress.counts.terms
        → ClausesHeld C clauses.old progress.clauses
        → PrefixRows table C tree.entry.branch.now prefix.old progress.noted
        → LineDone table C progress tree.entry.branch.now tree.entry.waiting.now f
        (arrays terms.new chains.new rows.new) clauses.new prefix.new (unnumbered result) }
{
    check_fields(progress, tree, f, terms, chains, rows, prefix, clauses).map_err(
        |reason| Refusal {
            reason,
            line: progress.lines + 1,
        },
    )
}
