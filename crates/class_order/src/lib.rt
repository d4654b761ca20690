// The order of blocks that the le literals of a branch and its class terms come to.
#![tactic(auto)]

ghost use Rattle.std.specs.Prelude.{◌≡◌, ℕ, ◌+◌, ◌*◌, ◌^◌, ◌<◌, eqb};
ghost use Rattle.mentions.specs.Mentions.{bit_at};
ghost use Rattle.class_order.specs.Words.{Words, RaisedWord};

use order_search::plan;
use packing::LiteralView;
use packing::literals::view;
use packing::term_codes::has_sort;
use pairs::{Pairs, first, second};
use partition::Partition;
use table::NUMBERS;
use tableau::{Sort, TermNumber};

// The words of a row: a bit for each number.
const ROW: usize = 16;

// All rows: ROW words for each of NUMBERS numbers.
pub const WORDS: usize = 16384;

// Bit y of row x, ROW words from x * ROW on, says that block x is under block y.
#[derive(Drop)]
pub struct Rows {
    pub words: [u64; WORDS],
    pub ghost valid: { Words words },
}

// Word i of a row with the bit of y alone.
fn own_word(y: usize, i: usize) -> u64
    ensures { ((q : ℕ) → q < 64 → bit_at result q ≡ eqb y (i * 64 + q)) × (result < 2 ^ 64) }
{
    if y / 64 == i { 1 << (y % 64) } else { 0 }
}

// Unites the word `to` with the word `from` and the bits `own`, and says whether that is new.
fn raise_word(words: &mut [u64; WORDS], to: usize, from: usize, own: u64) -> bool
    requires { Words words.old × (to < 16384) × (from < 16384) × (own < 2 ^ 64) }
    ensures { RaisedWord words.old words.new to from own result }
{
    let old = words[to];
    let new = old | (words[from] | own);
    words[to] = new;
    new != old
}

impl Rows {
    ghost use Rattle.std.specs.Prelude.{◌≡◌, ℕ, length, map};
    ghost use Rattle.tableau.specs.Terms.{Table};
    ghost use Rattle.packing.specs.Packing.{unpack_literal, Small};
    ghost use Rattle.table.specs.Held.{Entries};
    ghost use Rattle.partition.specs.Blocks.{block_of};
    ghost use Rattle.class_order.specs.Rows.{is_under, Raised, RaisedLiteral, Passed, Composed};
    ghost use Rattle.class_order.specs.Rows.{RaisedClass, Empty, Reflexive, Filled};

    pub fn empty() -> Self
        ensures { Empty result }
    {
        Rows { words: [0; WORDS] }
    }

    // Is block x under block y?
    fn is_under(&self, x: TermNumber, y: TermNumber) -> bool
        requires { Small x.0 × Small y.0 }
        ensures { result ≡ is_under self.now x.0 y.0 }
    {
        (self.words[x.0 * ROW + y.0 / 64] >> (y.0 % 64)) % 2 == 1
    }

    // Is the block of a under that of b?
    pub fn terms_under(&self, blocks: &Partition, a: TermNumber, b: TermNumber) -> bool
        requires { Small a.0 × Small b.0 }
        ensures { result ≡ is_under self.now (block_of blocks.now a.0) (block_of blocks.now b.0) }
    {
        self.is_under(blocks.block(a), blocks.block(b))
    }

    // What is above y, and y, is above x. Says whether that is new.
    fn raise(&mut self, x: TermNumber, y: TermNumber) -> bool
        requires { Small x.0 × Small y.0 }
        ensures { Raised self.old self.new x.0 y.0 result }
    {
        let mut changed = false;
        for i in 0..ROW {
            let own = own_word(y.0, i);
            changed |= raise_word(&mut self.words, x.0 * ROW + i, y.0 * ROW + i, own);
        }
        changed
    }

    // The blocks of a le literal; another literal says nothing of the order.
    fn raise_literal(&mut self, blocks: &Partition, code: u32) -> bool
        ensures { RaisedLiteral blocks.now self.old self.new (unpack_literal code) result }
    {
        let LiteralView::Le(a, b) = view(code) else {
            return false;
        };
        self.raise(blocks.block(a), blocks.block(b))
    }

    // One pass over the literals of a branch. Says whether any was new.
    fn pass(&mut self, blocks: &Partition, branch: &[u32]) -> bool
        ensures { Passed blocks.now self.old self.new (map unpack_literal branch.now) result }
    {
        let mut changed = false;
        for &code in branch {
            changed |= self.raise_literal(blocks, code);
        }
        changed
    }

    // What is above y is above x, for a pair x, y of which the rows say that x is under y.
    fn raise_pair(&mut self, pair: u32)
        ensures { Composed self.old self.new }
    {
        let x = TermNumber(first(pair));
        let y = TermNumber(second(pair));
        if self.is_under(x, y) {
            self.raise(x, y);
        }
    }

    // Raises the pairs of a search. As a rule a pass then finds nothing new, in whatever order the
    // literals stand; the result does not depend on it.
    fn hasten(&mut self, blocks: &Partition, branch: &[u32])
        ensures { Composed self.old self.new }
    {
        let mut pairs = Pairs::none();
        plan(&blocks.blocks, branch, &mut pairs);
        for &pair in pairs.noted() {
            self.raise_pair(pair);
        }
    }

    // Where the packed term t is a class, its block is under itself.
    fn raise_class(&mut self, blocks: &Partition, packed: u64, t: TermNumber)
        requires { Small t.0 }
        ensures { RaisedClass blocks.now self.old self.new packed t.0 }
    {
        if has_sort(packed, Sort::Class) {
            let x = blocks.block(t);
            self.raise(x, x);
        }
    }

    // The blocks of class terms are under themselves.
    fn reflexive(&mut self, blocks: &Partition, terms: &[u64; NUMBERS], n: usize)
        requires entries { (table : Table) × Entries table terms.now × (length table ≡ n) }
        requires empty { Empty self.old }
        ensures { (table : Table) → Entries table terms.now → length table ≡ n
            → Reflexive table blocks.now self.new }
    {
        for t in 1..=n {
            self.raise_class(blocks, terms[t], TermNumber(t));
        }
    }

    // Fills empty rows with the order that the branch's le literals and the class terms come to.
    pub fn fill(&mut self, blocks: &Partition, terms: &[u64; NUMBERS], n: usize, branch: &[u32])
        requires entries { (table : Table) × Entries table terms.now × (length table ≡ n) }
        requires empty { Empty self.old }
        ensures { (table : Table) → Entries table terms.now → length table ≡ n
            → Filled table blocks.now self.new (map unpack_literal branch.now) }
    {
        self.reflexive(blocks, terms, n);
        self.pass(blocks, branch);
        self.hasten(blocks, branch);
        while self.pass(blocks, branch) {}
    }
}
