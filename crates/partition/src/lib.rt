// Terms in blocks: two terms are put into one block where it follows that they are equal.
#![tactic(auto)]

ghost use Rattle.std.specs.Prelude.{◌≡◌, eqb, get_or};
ghost use Rattle.packing.specs.Packing.{Small};
ghost use Rattle.partition.specs.Array.{IsPartition, Renamed};

use table::NUMBERS;
use tableau::TermNumber;

// A partition of the numbers below NUMBERS: blocks[x] is the number that stands for the block of x.
#[derive(Drop)]
pub struct Partition {
    pub blocks: [u16; NUMBERS],
    pub ghost valid: { IsPartition blocks },
}

// The block `from` becomes part of the block `to`. One loop over the array, with no branch, takes
// less time than a forest of numbers and its searches.
fn merge(blocks: &mut [u16; NUMBERS], from: u16, to: u16)
    ensures { Renamed blocks.old blocks.new from to }
{
    for x in blocks.iter_mut() {
        *x = if *x == from { to } else { *x };
    }
}

// Are the terms in one block, by the numbers that stand for their blocks?
pub fn together(blocks: &[u16; NUMBERS], a: TermNumber, b: TermNumber) -> bool
    requires { Small a.0 × Small b.0 }
    ensures { result ≡ eqb (get_or blocks.now a.0 0) (get_or blocks.now b.0 0) }
{
    blocks[a.0] == blocks[b.0]
}

impl Partition {
    ghost use Rattle.std.specs.Prelude.{◌≡◌};
    ghost use Rattle.partition.specs.Blocks.{block_of, Joined, Singletons};

    // Every number in a block of its own.
    pub fn singletons() -> Self
        ensures { Singletons result }
    {
        let mut blocks = [0; NUMBERS];
        for (i, x) in blocks.iter_mut().enumerate() {
            *x = i as u16;
        }
        Partition { blocks }
    }

    // The number that stands for the block of a term.
    pub fn block(&self, a: TermNumber) -> TermNumber
        requires { Small a.0 }
        ensures small { Small result.0 }
        ensures block { result.0 ≡ block_of self.now a.0 }
    {
        TermNumber(usize::from(self.blocks[a.0]))
    }

    // Joins the blocks of a and b, and says whether they were apart. Which of its numbers stands
    // for the joined block is free: whoever asks compares two blocks, or takes one as a name.
    pub fn join(&mut self, a: TermNumber, b: TermNumber) -> bool
        requires { Small a.0 × Small b.0 }
        ensures { Joined self.old self.new a.0 b.0 result }
    {
        let from = self.blocks[a.0];
        let to = self.blocks[b.0];
        if from == to {
            return false;
        }
        merge(&mut self.blocks, from, to);
        true
    }
}
