// The lines of a file, in one loop: each is read once, whatever its letter.
#![tactic(auto)]

ghost use Rattle.std.specs.Prelude.{◌≡◌, [], ◌+◌, ◌<◌, ◌≤◌, length};
ghost use Rattle.tableau.specs.File.{max_bytes};
ghost use Rattle.tableau.specs.Tree.{root};
ghost use Rattle.packing.specs.Packing.{unpack_literal};
ghost use Rattle.clauses.specs.Held.{ClausesHeld};
ghost use Rattle.terms.specs.Arrays.{arrays, Held};
ghost use Rattle.freshness.specs.Prefixes.{PrefixRows};
ghost use Rattle.tree.specs.State.{tree_of, Within};
ghost use Rattle.file_run.specs.Reached.{RunsTo, refused_at};

use growth::Progress;
use line_checks::check_line;
use lines::{Cursor, lines_end, read_line};
use tableau::{Reason, Refusal};
use tree::Tree;

// A run over a file, with its tree.
#[derive(Drop)]
pub struct Run {
    pub tree: Tree,
}

// The tree after all lines of a file, and how far the file is read then.
#[derive(Drop)]
pub struct Ran {
    pub tree: Tree,
    pub progress: Progress,
}

// Check 2, of the line behind so many.
fn bad_shape(lines: usize) -> Refusal
    requires { lines < max_bytes }
    ensures { result ≡ refused_at Reason.BadShape (lines + 1) }
{
    Refusal {
        reason: Reason::BadShape,
        line: lines + 1,
    }
}

impl Run {
    // From an empty tree, with arrays that hold no term, no row and no clause. Where a line is
    // refused, what the arrays hold is free: the reason and the line are the whole answer. The loop
    // stands inside the method: called for each step, it would copy the tree.
    pub fn run(
        mut self,
        file: &[u8],
        terms: &mut [u64; table::NUMBERS],
        chains: &mut [u16; table::LINKS],
        rows: &mut [u64; mentions::WORDS],
        prefix: &mut [u64; freshness::PREFIX_WORDS],
        clauses: &mut [u32; clauses::WORDS],
    ) -> Result<Ran, Refusal>
        requires held { Held [] (arrays terms.old chains.old rows.old) 0
            × PrefixRows [] [] [] prefix.old 0 × ClausesHeld [] clauses.old 0 }
        requires within { Within self.tree × (tree_of unpack_literal self.tree ≡ root)
            × (length file.now ≤ max_bytes) }
        ensures { RunsTo file.now (arrays terms.new chains.new rows.new) clauses.new result }
    {
        let mut progress = Progress::start();
        let end = lines_end(file);
        let mut at = 0;
        while at < end {
            let f = read_line(file, Cursor { at }).ok_or(bad_shape(progress.lines))?;
            let effect = check_line(
                progress,
                self.tree.view(),
                f,
                terms,
                chains,
                rows,
                prefix,
                clauses,
            )?;
            self.tree.apply(effect.change, &*clauses);
            progress = effect.progress;
            at = f.next.at;
        }
        if at < file.len() {
            return Err(bad_shape(progress.lines));
        }
        Ok(Ran {
            tree: self.tree,
            progress,
        })
    }
}
