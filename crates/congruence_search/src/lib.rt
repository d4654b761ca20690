// Which terms to join by congruence, and in which order: a congruence closure by a queue of terms
// whose arguments have changed blocks, on its own copy of the blocks. A pair t, w says: these two
// have one signature now.
//
// Nothing is promised of the pairs but their number: whoever follows them joins two terms only
// where their signatures are one, so that a search that errs costs time and nothing else.
#![tactic(auto)]

ghost use Rattle.std.specs.Prelude.{◌≤◌, ◌<◌};
ghost use Rattle.tableau.specs.Terms.{max_terms};
ghost use Rattle.syntax.specs.Syntax.{arguments_in};
ghost use Rattle.packing.specs.Packing.{Small, AllSmall};

use cells::Cells;
use packing::term_codes::{fields, takes_terms, with_fields};
use pairs::Pairs;
use syntax::Arguments;
use table::NUMBERS;
use tableau::TermNumber;

// More than there are uses, and more entries than ordinary files need.
const LONG: usize = 4096;

// How many entries of a hash are looked at.
const HOPS: usize = 8;

// More than ordinary files need.
const STEPS: usize = 16384;

// Other factors than those of the term table, so that terms which share a hash there do not share
// one here. They are odd.
const LOW_FACTOR: u64 = 22695477211;

const HIGH_FACTOR: u64 = 28629151879;

// What a search knows, and how far it has come.
#[derive(Drop)]
struct Search<'a> {
    terms: &'a [u64; NUMBERS],

    // Of a number: its block.
    blocks: Cells<NUMBERS>,

    // Of a number: the next one of its block, in a circle.
    members: Cells<NUMBERS>,

    // Of a block: how many numbers it has.
    sizes: Cells<NUMBERS>,

    // Of a number: the first use as an argument, 4 t + k + 1 for argument k of the term t; 0 where
    // there is none.
    uses: Cells<NUMBERS>,

    // Of a use: the next use of the same number.
    next_uses: Cells<LONG>,

    // Of a term: whether it is in the queue.
    queued: [bool; NUMBERS],

    // The queue, in a circle: `waiting` terms from `front` on.
    queue: Cells<NUMBERS>,
    front: usize,
    waiting: usize,

    // Of a hash: the first entry; 0 where there is none.
    heads: Cells<NUMBERS>,

    // Of each of the `entered` entries: the next one of its hash, and its term. A term is entered
    // anew when its signature has changed.
    next_entries: Cells<LONG>,
    entries: Cells<LONG>,
    entered: usize,
    ghost counts: { (front ≤ 1024) × (waiting ≤ 1024) × (entered ≤ 4096) },
}

fn hash(signature: u64) -> usize
    ensures { Small result }
{
    table::hash(signature, LOW_FACTOR, HIGH_FACTOR)
}

impl<'a> Search<'a> {
    fn of(terms: &'a [u64; NUMBERS]) -> Self {
        Search {
            terms,
            blocks: Cells::zeros(),
            members: Cells::zeros(),
            sizes: Cells::zeros(),
            uses: Cells::zeros(),
            next_uses: Cells::zeros(),
            queued: [false; NUMBERS],
            queue: Cells::zeros(),
            front: 0,
            waiting: 0,
            heads: Cells::zeros(),
            next_entries: Cells::zeros(),
            entries: Cells::zeros(),
            entered: 0,
        }
    }

    // Every number up to n in a block of its own.
    fn alone(&mut self, n: usize)
        requires { n ≤ max_terms }
    {
        for x in 0..=n {
            self.blocks.put(x, x);
            self.members.put(x, x);
            self.sizes.put(x, 1);
        }
    }

    // The circles of x and y made one.
    fn splice(&mut self, x: usize, y: usize) {
        let after = self.members.get(x);
        let other = self.members.get(y);
        self.members.put(x, other);
        self.members.put(y, after);
    }

    // The number x in the block that it has.
    fn gather_number(&mut self, x: usize, block: usize) {
        if x == block {
            return;
        }
        self.blocks.put(x, block);
        self.splice(x, block);
        self.sizes.put(block, self.sizes.get(block) + 1);
    }

    fn gather(&mut self, blocks: &[u16; NUMBERS], n: usize)
        requires { n ≤ max_terms }
    {
        for x in 0..=n {
            self.gather_number(x, usize::from(blocks[x]));
        }
    }

    // A term that waits to be looked at; one that waits already is not put there twice.
    fn enqueue(&mut self, t: usize) {
        if self.queued[t % NUMBERS] {
            return;
        }
        self.queued[t % NUMBERS] = true;
        self.queue.put(self.front + self.waiting, t);
        self.waiting = self.waiting % NUMBERS + 1;
    }

    fn note_use(&mut self, argument: TermNumber, place: usize) {
        let first = self.uses.get(argument.0);
        self.next_uses.put(place, first);
        self.uses.put(argument.0, place);
    }

    // A term whose word takes terms: what it uses; it waits.
    fn begin_term(&mut self, t: usize)
        requires { t ≤ max_terms }
    {
        let packed = self.terms[t];
        if !takes_terms(packed) {
            return;
        }
        let k = fields(packed);
        self.note_use(k.a, 4 * t + 1);
        self.note_use(k.b, 4 * t + 2);
        self.note_use(k.c, 4 * t + 3);
        self.note_use(k.d, 4 * t + 4);
        self.enqueue(t);
    }

    fn begin(&mut self, n: usize)
        requires { n ≤ max_terms }
    {
        for t in 1..=n {
            self.begin_term(t);
        }
    }

    fn block(&self, t: TermNumber) -> TermNumber
        ensures { Small result.0 }
    {
        TermNumber(self.blocks.get(t.0) % NUMBERS)
    }

    // A twin of that in `congruence`: one for both, over a closure, needs more clauses than it saves.
    fn blocks_of(&self, k: Arguments) -> Arguments
        ensures { AllSmall (arguments_in result) }
    {
        Arguments {
            a: self.block(k.a),
            b: self.block(k.b),
            c: self.block(k.c),
            d: self.block(k.d),
        }
    }

    fn signature(&self, t: usize) -> u64
        requires { Small t }
    {
        let packed = self.terms[t];
        with_fields(packed, self.blocks_of(fields(packed)))
    }

    // A term that was entered with this signature.
    fn seek(&self, signature: u64) -> Option<usize> {
        let mut e = self.heads.get(hash(signature));
        for _ in 0..HOPS {
            if e == 0 {
                return None;
            }
            let w = self.entries.get(e) % NUMBERS;
            if self.signature(w) == signature {
                return Some(w);
            }
            e = self.next_entries.get(e);
        }
        None
    }

    fn enter(&mut self, signature: u64, t: usize) {
        let h = hash(signature);
        self.entered = self.entered % (LONG - 1) + 1;
        let first = self.heads.get(h);
        self.next_entries.put(self.entered, first);
        self.entries.put(self.entered, t);
        self.heads.put(h, self.entered);
    }

    // The terms that use x wait.
    fn wake(&mut self, x: usize) {
        let mut place = self.uses.get(x);
        for _ in 0..LONG {
            if place == 0 {
                return;
            }
            self.enqueue((place - 1) / 4);
            place = self.next_uses.get(place);
        }
    }

    // The numbers of the circle of x get the block, and what uses them waits.
    fn rename(&mut self, x: usize, block: usize) {
        let mut y = x;
        for _ in 0..NUMBERS {
            self.blocks.put(y, block);
            self.wake(y);
            y = self.members.get(y);
            if y == x {
                return;
            }
        }
    }

    // Makes the block of x part of that of y.
    fn absorb(&mut self, x: usize, y: usize) {
        let from = self.blocks.get(x);
        let to = self.blocks.get(y);
        let size = self.sizes.get(to) + self.sizes.get(from);
        self.sizes.put(to, size);
        self.rename(x, to);
        self.splice(x, y);
    }

    // The smaller block becomes part of the larger.
    fn merge(&mut self, x: usize, y: usize) {
        let size_x = self.sizes.get(self.blocks.get(x));
        let size_y = self.sizes.get(self.blocks.get(y));
        if size_x < size_y {
            self.absorb(x, y);
        } else {
            self.absorb(y, x);
        }
    }

    // The term t, taken out of the queue, beside the one that was entered with its signature, if
    // there is one.
    fn meet(&mut self, pairs: &mut Pairs, t: usize)
        requires { Small t }
    {
        let signature = self.signature(t);
        let Some(w) = self.seek(signature) else {
            return self.enter(signature, t);
        };
        if self.blocks.get(w) != self.blocks.get(t) {
            pairs.note(t, w);
            self.merge(t, w);
        }
    }

    fn step(&mut self, pairs: &mut Pairs)
        requires { 0 < self.old.waiting }
    {
        let t = self.queue.get(self.front) % NUMBERS;
        self.queued[t] = false;
        self.front = self.front % NUMBERS + 1;
        self.waiting -= 1;
        self.meet(pairs, t);
    }
}

// Notes the pairs. Which they are, and in which order, is free: whoever follows them tests each.
pub fn plan(blocks: &[u16; NUMBERS], terms: &[u64; NUMBERS], n: usize, pairs: &mut Pairs)
    requires { n ≤ max_terms }
{
    let mut search = Search::of(terms);
    search.alone(n);
    search.gather(blocks, n);
    search.begin(n);
    for _ in 0..STEPS {
        if search.waiting == 0 {
            return;
        }
        search.step(pairs);
    }
}
