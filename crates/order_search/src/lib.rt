// In which order to raise the blocks of le literals, so that as a rule one pass is enough: a
// depth-first search for the strongly connected components of the le literals' blocks (Tarjan). A
// pair x, y says: what is above y is above x. A component's pairs come after those of the
// components above it; the last ones lead from each of its blocks to one that was found earlier.
//
// Nothing is promised of the pairs but their number: whoever follows them takes a pair only where
// the rows already say that it holds, so that a search that errs costs time and nothing else.
#![tactic(auto)]

ghost use Rattle.std.specs.Prelude.{◌≤◌, ◌<◌};

use cells::Cells;
use packing::LiteralView;
use packing::literals::{packed_left, packed_right, view};
use pairs::Pairs;
use table::NUMBERS;

// Each step takes a literal or a block off, so that these are enough.
const STEPS: usize = 4096;

// Stands for the time of finding once a component is complete: later than all others.
const DONE: usize = 1023;

// What a search knows, and how far it has come.
#[derive(Drop)]
struct Search<'a> {
    blocks: &'a [u16; NUMBERS],
    branch: &'a [u32],

    // Of a block: the next le literal from it to look at, counted from 1; 0 where none is left.
    edges: Cells<NUMBERS>,

    // Of a literal: the next one from the same block.
    next_edges: Cells<NUMBERS>,

    // Of a block: when it was found, counted from 1; 0 where it was not. `count` were found.
    found: Cells<NUMBERS>,
    count: usize,

    // Of a block: the earliest one that it is known to lead to.
    low: Cells<NUMBERS>,

    // The `depth` blocks from where the search began to where it stands.
    path: Cells<NUMBERS>,
    depth: usize,

    // The `height` blocks found whose components are not complete, in the order of finding.
    stack: Cells<NUMBERS>,
    height: usize,
    ghost counts: { (count ≤ 1024) × (depth ≤ 1024) × (height ≤ 1024) },
}

impl<'a> Search<'a> {
    fn of(blocks: &'a [u16; NUMBERS], branch: &'a [u32]) -> Self {
        Search {
            blocks,
            branch,
            edges: Cells::zeros(),
            next_edges: Cells::zeros(),
            found: Cells::zeros(),
            count: 0,
            low: Cells::zeros(),
            path: Cells::zeros(),
            depth: 0,
            stack: Cells::zeros(),
            height: 0,
        }
    }

    // The block of a le literal's left side, from which it leads.
    fn left(&self, code: u32) -> Option<usize> {
        let LiteralView::Le(..) = view(code) else {
            return None;
        };
        Some(usize::from(self.blocks[packed_left(code).0]))
    }

    // Each le literal, by its number from 1.
    fn link(&mut self) {
        for (i, &code) in self.branch.iter().enumerate() {
            if let Some(x) = self.left(code) {
                let first = self.edges.get(x);
                self.next_edges.put(i + 1, first);
                self.edges.put(x, i + 1);
            }
        }
    }

    // A block is found.
    fn enter(&mut self, x: usize) {
        self.count = self.count % (DONE - 1) + 1;
        self.found.put(x, self.count);
        self.low.put(x, x);
        self.path.put(self.depth, x);
        self.depth = self.depth % NUMBERS + 1;
        self.stack.put(self.height, x);
        self.height = self.height % NUMBERS + 1;
    }

    // The block x leads to y.
    fn lower(&mut self, x: usize, y: usize) {
        if self.found.get(y) < self.found.get(self.low.get(x)) {
            self.low.put(x, y);
        }
    }

    // A literal from x to y, where the search stands at x.
    fn traverse(&mut self, pairs: &mut Pairs, x: usize, y: usize) {
        if self.found.get(y) == 0 {
            return self.enter(y);
        }
        self.lower(x, y);
        pairs.note(x, y);
    }

    // Where the block stands among those on the stack.
    fn base(&self, x: usize) -> usize
        ensures { result ≤ self.now.height }
    {
        for i in (0..self.height).rev() {
            if self.stack.get(i) == x {
                return i;
            }
        }
        0
    }

    // One block of a component that is complete.
    fn finish(&mut self, pairs: &mut Pairs, i: usize) {
        let x = self.stack.get(i);
        self.found.put(x, DONE);
        pairs.note(x, self.low.get(x));
    }

    // The component that the blocks of the stack from x on make.
    fn complete(&mut self, pairs: &mut Pairs, x: usize) {
        let from = self.base(x);
        for i in from..self.height {
            self.finish(pairs, i);
        }
        self.height = from;
    }

    // The search has looked at all literals from x, where it stands.
    fn leave(&mut self, pairs: &mut Pairs, x: usize)
        requires { 0 < self.old.depth }
    {
        self.depth -= 1;
        if self.low.get(x) == x {
            self.complete(pairs, x);
        }
        if self.depth == 0 {
            return;
        }
        let before = self.path.get(self.depth - 1);
        let low = self.low.get(x);
        self.lower(before, low);
        pairs.note(before, x);
    }

    // One step of the search, that of a literal or of a way back.
    fn step(&mut self, pairs: &mut Pairs)
        requires { 0 < self.old.depth }
    {
        let x = self.path.get(self.depth - 1);
        let e = self.edges.get(x);
        if e == 0 {
            return self.leave(pairs, x);
        }
        let after = self.next_edges.get(e);
        self.edges.put(x, after);
        if let Some(&code) = self.branch.get(e - 1) {
            let y = usize::from(self.blocks[packed_right(code).0]);
            self.traverse(pairs, x, y);
        }
    }

    // The search from one block.
    fn search_from(&mut self, pairs: &mut Pairs, x: usize) {
        self.enter(x);
        for _ in 0..STEPS {
            if self.depth == 0 {
                return;
            }
            self.step(pairs);
        }
    }

    // The search from the left side of a literal, where that is not found yet.
    fn search_literal(&mut self, pairs: &mut Pairs, code: u32) {
        if let Some(x) = self.left(code) {
            if self.found.get(x) == 0 {
                self.search_from(pairs, x);
            }
        }
    }
}

// Notes the pairs. Which they are, and in which order, is free, as in `congruence_search`.
pub fn plan(blocks: &[u16; NUMBERS], branch: &[u32], pairs: &mut Pairs) {
    let mut search = Search::of(blocks, branch);
    search.link();
    for &code in branch {
        search.search_literal(pairs, code);
    }
}
