// What a step asks of the whole branch: is w fresh, does the branch contradict itself? Asked only
// where the rule asks it.
ghost use Rattle.std.specs.Prelude.{◌≡◌, ◌≤◌, length};
ghost use Rattle.tableau.specs.Terms.{Table, Clauses};
ghost use Rattle.table.specs.Held.{Entries};
ghost use Rattle.mentions.specs.Mentions.{MentionRows};
ghost use Rattle.freshness.specs.Prefixes.{PrefixRows};
ghost use Rattle.tree.specs.State.{AreCodes};
ghost use Rattle.steps.specs.Asking.{Answers};

use conclusions::Told;
use syntax::Step;
use tableau::{Freshness, Rule};

// What the step is told, and how many literals have their rows after the test of w.
#[derive(Clone, Copy)]
pub struct Asked {
    pub told: Told,
    pub noted: usize,
}

// The first `noted` literals of the branch have their rows. A rule that does not ask looks at no
// answer: any serves.
pub fn ask(
    step: Step,
    branch: &[u32],
    noted: usize,
    terms: &[u64; table::NUMBERS],
    rows: &[u64; mentions::WORDS],
    prefix: &mut [u64; freshness::PREFIX_WORDS],
    n: usize,
) -> Asked
    requires entries { (table : Table) × Entries table terms.now × (length table ≡ n) }
    requires branch { AreCodes branch.now × (noted ≤ length branch.now) }
    ensures noted_le_len { result.noted ≤ length branch.now }
    ensures told { (table : Table) (C : Clauses) → Entries table terms.now
        → MentionRows table rows.now → length table ≡ n
        → PrefixRows table C branch.now prefix.old noted
        → Answers table C branch.now step prefix.new result }
{
    let unasked = Told {
        fresh: Freshness::Fresh,
        contradicted: false,
    };
    match step.rule {
        Rule::Ext | Rule::Wit => {
            freshness::note(prefix, rows, n, branch, noted);
            let fresh = freshness::test(terms, rows, &*prefix, n, branch, step.w);
            Asked {
                told: Told { fresh, ..unasked },
                noted: branch.len(),
            }
        }
        Rule::Bck => Asked {
            told: Told {
                contradicted: background::contradicted(terms, n, branch),
                ..unasked
            },
            noted,
        },
        _ => Asked {
            told: unasked,
            noted,
        },
    }
}
