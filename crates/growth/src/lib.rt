// What a line makes of the tree and of the counts, and the verdict where the file ends.
#![tactic(auto)]

ghost use Rattle.std.specs.Prelude.{◌≡◌, ℕ, ◌+◌, ◌<◌, ◌≤◌, get_or};
ghost use Rattle.tableau.specs.File.{max_bytes};
ghost use Rattle.tableau.specs.Reply.{max_clause_lines};
ghost use Rattle.packing.specs.Packing.{code_limit};
ghost use Rattle.tree.specs.State.{InLimits};
ghost use Rattle.rules.specs.Answer.{Room};
ghost use Rattle.reply.specs.Verdict.{verdict_of};
ghost use Rattle.growth.specs.Growth.{closings_of, Grows, SplitsClause};
ghost use Rattle.growth.specs.Progress.{Counted, at_start, after, after_term, after_literal};
ghost use Rattle.growth.specs.Progress.{after_disjunct, after_step, changed_to, grown_to};
ghost use Rattle.growth.specs.Progress.{verdict_at_end};

use clauses::Span;
use reply::{Counts, Verdict};
use rules::outcome::Outcome;
use tableau::{ClauseNumber, Letter, Reason, Refusal, Rule};
use tree::{Alternative, Begun, Change, TreeView};

// How far a file is read: the letter of its last line, whether the tree is closed, the lines so far
// and their counts, the number of the last clause. The first `noted` literals of the branch have
// their rows of mentions.
#[derive(Clone, Copy)]
pub struct Progress {
    pub letter: Letter,
    pub closed: bool,
    pub lines: usize,
    pub noted: usize,
    pub clauses: usize,
    pub counts: Counts,
}

// What a line comes to: how far the file is read after it, and the change that it makes of the
// tree.
#[derive(Clone, Copy)]
pub struct LineEffect {
    pub progress: Progress,
    pub change: Change,
}

// `cls`, `emp` and `bck` close.
fn closings(rule: Rule) -> usize
    ensures { result ≡ closings_of rule }
{
    usize::from(matches!(rule, Rule::Cls | Rule::Emp | Rule::Bck))
}

// What an outcome makes of the tree, with checks 15 and 16: a change, or none where it is closed.
pub fn grow(tree: TreeView, outcome: Outcome) -> Result<Option<Change>, Reason>
    requires { InLimits tree.branch.now tree.waiting.now × Room outcome }
    ensures { Grows tree.entry.branch.now tree.entry.waiting.now outcome result }
{
    match outcome {
        Outcome::Closes => Ok(tree.close()),
        Outcome::Adds(a) => tree.extend(a).map(Some),
        Outcome::Splits(a, b) => tree.split2(a, b).map(Some),
        Outcome::SplitsThree(a, b, c) => tree.split3(a, b, c).map(Some),
    }
}

// A clause is split into its literals, with checks 15 and 16: each is an alternative of its own.
pub fn split_clause(
    tree: TreeView,
    literals: &[u32; clauses::WORDS],
    span: Span,
) -> Result<Change, Reason>
    requires tree { InLimits tree.branch.now tree.waiting.now }
    requires span { (1 ≤ span.count) × (span.from + span.count ≤ max_clause_lines) }
    requires literals { (i : ℕ) → get_or literals.now i 0 < code_limit }
    ensures { SplitsClause literals.now tree.entry.branch.now tree.entry.waiting.now span result }
{
    let rest = Span {
        from: span.from + 1,
        count: span.count - 1,
    };
    tree.require_room(1, rest.count)?;
    let first = Alternative::one(literals[span.from]);
    Ok(tree.split(first, Begun::Each(rest)))
}

impl Progress {
    pub fn start() -> Self
        ensures { result ≡ at_start }
    {
        Self {
            letter: Letter::T,
            closed: false,
            lines: 0,
            noted: 0,
            clauses: 0,
            counts: Counts {
                terms: 0,
                assumptions: 0,
                steps: 0,
                closings: 0,
            },
        }
    }

    // A line more, which leaves the tree open.
    fn after(self, letter: Letter) -> Self
        requires { self.lines < max_bytes }
        ensures { result ≡ after self letter }
    {
        Self {
            letter,
            closed: false,
            lines: self.lines + 1,
            ..self
        }
    }

    // A T line: the rows are those of another table, and none is kept.
    pub fn after_term(self) -> Self
        requires { Counted self × (self.lines < max_bytes) }
        ensures { result ≡ after_term self }
    {
        Self {
            noted: 0,
            counts: Counts {
                terms: self.counts.terms + 1,
                ..self.counts
            },
            ..self.after(Letter::T)
        }
    }

    pub fn after_literal(self) -> Self
        requires { Counted self × (self.lines < max_bytes) }
        ensures { result ≡ after_literal self }
    {
        Self {
            counts: Counts {
                assumptions: self.counts.assumptions + 1,
                ..self.counts
            },
            ..self.after(Letter::A)
        }
    }

    // A C line of this clause: no row but the clauses' own is kept.
    pub fn after_disjunct(self, clause: ClauseNumber) -> Self
        requires { Counted self × (self.lines < max_bytes) }
        ensures { result ≡ after_disjunct self clause.0 }
    {
        Self {
            noted: 0,
            clauses: clause.0,
            ..self.after(Letter::C)
        }
    }

    // An S line that leaves the tree open, with so many rows.
    pub fn after_step(self, rule: Rule, noted: usize) -> Self
        requires { Counted self × (self.lines < max_bytes) }
        ensures { result ≡ after_step self rule noted }
    {
        Self {
            noted,
            counts: Counts {
                steps: self.counts.steps + 1,
                closings: self.counts.closings + closings(rule),
                ..self.counts
            },
            ..self.after(Letter::S)
        }
    }

    // The line makes this change. Rows of literals behind a cut no longer hold.
    pub fn changed(self, change: Change) -> LineEffect
        ensures { result ≡ changed_to self change }
    {
        LineEffect {
            progress: Self {
                noted: self.noted.min(change.cut),
                ..self
            },
            change,
        }
    }

    // The same, or the tree is closed.
    pub fn grown(self, tree: TreeView, growth: Option<Change>) -> LineEffect
        ensures { result ≡ grown_to self tree.entry.branch.now tree.entry.waiting.now growth }
    {
        match growth {
            Some(change) => self.changed(change),
            None => LineEffect {
                progress: Self {
                    closed: true,
                    ..self
                },
                change: tree.unchanged(),
            },
        }
    }

    // The end of the file: a closed tree is accepted, an open one breaks check 17. "The assumed
    // count takes A lines plus clauses."
    pub fn end(self) -> Verdict
        requires { Counted self × (self.lines ≤ max_bytes) }
        ensures { verdict_of result ≡ verdict_at_end self }
    {
        if self.closed {
            Ok(Counts {
                assumptions: self.counts.assumptions + self.clauses,
                ..self.counts
            })
        } else {
            Err(Refusal {
                reason: Reason::BranchOpen,
                line: self.lines + 1,
            })
        }
    }
}
