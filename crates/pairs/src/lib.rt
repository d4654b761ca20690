// Pairs of numbers below NUMBERS that a search names, for whoever follows them, each as one number.
#![tactic(auto)]

ghost use Rattle.std.specs.Prelude.{◌≡◌, ◌%◌, take};
ghost use Rattle.packing.specs.Packing.{Small};
ghost use Rattle.pairs.specs.Pairs.{AtMostPairs, pair_of, first_of, second_of, with_pair};
ghost use Rattle.pairs.specs.Pairs.{count_with};

use table::NUMBERS;

// Room for what either search names: of the order, a pair from each literal and one from each
// block; of congruent terms, fewer than there are terms.
pub const PAIRS: usize = 2048;

// The first `count` of an array, in the order in which they were noted.
#[derive(Drop)]
pub struct Pairs {
    pub pairs: [u32; PAIRS],
    pub count: usize,
    pub ghost at_most_pairs: { AtMostPairs count },
}

impl Pairs {
    pub fn none() -> Self
        ensures { result.count ≡ 0 }
    {
        Pairs {
            pairs: [0; PAIRS],
            count: 0,
        }
    }

    // One pair x, y more, if there is room. A number is cut to NUMBERS.
    pub fn note(&mut self, x: usize, y: usize)
        ensures count { self.new.count ≡ count_with self.old.count }
        ensures pairs_after { self.new.pairs
            ≡ with_pair self.old.pairs self.old.count (pair_of (x % 1024) (y % 1024)) }
    {
        if self.count < PAIRS {
            self.pairs[self.count] = (x % NUMBERS * NUMBERS + y % NUMBERS) as u32;
            self.count += 1;
        }
    }

    pub fn noted(&self) -> &[u32]
        ensures { result.now ≡ take self.now.count self.now.pairs }
    {
        &self.pairs[..self.count]
    }
}

pub fn first(pair: u32) -> usize
    ensures small { Small result }
    ensures value { result ≡ first_of pair }
{
    (pair / NUMBERS as u32) as usize % NUMBERS
}

pub fn second(pair: u32) -> usize
    ensures small { Small result }
    ensures value { result ≡ second_of pair }
{
    pair as usize % NUMBERS
}
