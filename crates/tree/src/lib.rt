// The tree: the branch and the alternatives that wait. A literal is one number here, its code; the
// contracts hold for every reading of the codes as literals. What a step makes of the tree is worked
// out as a small value, a change, and then stored in place: a method by `mut self` for each step
// would copy the arrays.
#![tactic(auto)]

ghost use Rattle.std.specs.Prelude.{◌≡◌, true, [], ◌∷◌, ◌++◌, ℕ, ◌+◌, ◌≤◌, ◌<◌, length, take, reverse, get_or};
ghost use Rattle.tableau.specs.Terms.{Literal};
ghost use Rattle.tableau.specs.Tree.{max_places, max_waiting, root};
ghost use Rattle.packing.specs.Packing.{code_limit};
ghost use Rattle.tree.specs.State.{codes_of, AtMost, one_code, packed, cut_of, unpacked};
ghost use Rattle.tree.specs.State.{AreCodes, HasPlace, IsAt, HasRoom, InLimits};
ghost use Rattle.tree.specs.State.{codes_in, waiting_in, tree_of, Within};
ghost use Rattle.tree.specs.Change.{no_literals, split_into, room_for, begun_of, begun_count};
ghost use Rattle.tree.specs.Change.{MayBegin, ReadsCodes, Fits, Splits, Closes, Stored};

use clauses::Span;
use tableau::{Place, Reason};

// The literals that an alternative adds, in order: the first `count` of three.
#[derive(Clone, Copy)]
pub struct Alternative {
    pub count: usize,
    pub first: u32,
    pub second: u32,
    pub third: u32,
}

// The branch is the first `len` of its array; the first `count` of the other are the packed
// alternatives that wait, and the last is taken next.
#[derive(Drop)]
pub struct Tree {
    pub branch: [u32; Tree::PLACES],
    pub len: usize,
    pub waiting: [u64; Tree::WAITING],
    pub count: usize,
}

// What a tree's arrays hold: the codes of its branch, and the packed alternatives that wait.
#[derive(Clone, Copy)]
pub struct TreeView<'a> {
    pub branch: &'a [u32],
    pub waiting: &'a [u64],
}

// What begins to wait: packed alternatives, of two the first is taken first; or the literals of a
// span, each an alternative of its own.
#[derive(Clone, Copy)]
pub enum Begun {
    Nothing,
    One(u64),
    Two(u64, u64),
    Each(Span),
}

// The branch is cut back to a length, and an alternative added there; some alternatives are kept
// waiting, and others begin to wait on top of them.
#[derive(Clone, Copy)]
pub struct Change {
    pub cut: usize,
    pub adds: Alternative,
    pub kept: usize,
    pub begun: Begun,
}

impl Alternative {
    // How many values each part of a packed alternative can have, from the low end: the length of
    // the branch at its split, the count, and two literals. No alternative that waits has three.
    const CUTS: u64 = 1024;

    const COUNTS: u64 = 4;

    const CODES: u64 = 8388608;

    fn none() -> Self
        ensures { result ≡ no_literals }
    {
        Self {
            count: 0,
            first: 0,
            second: 0,
            third: 0,
        }
    }

    pub fn one(first: u32) -> Self
        requires { first < code_limit }
        ensures { AtMost 1 result × (result ≡ one_code first) }
    {
        Self {
            count: 1,
            first,
            ..Self::none()
        }
    }

    pub fn two(first: u32, second: u32) -> Self
        requires { (first < code_limit) × (second < code_limit) }
        ensures { AtMost 2 result × (codes_of result ≡ first ∷ second ∷ []) }
    {
        Self {
            count: 2,
            first,
            second,
            third: 0,
        }
    }

    pub fn three(first: u32, second: u32, third: u32) -> Self
        requires { (first < code_limit) × (second < code_limit) × (third < code_limit) }
        ensures { AtMost 3 result × (codes_of result ≡ first ∷ second ∷ third ∷ []) }
    {
        Self {
            count: 3,
            first,
            second,
            third,
        }
    }

    fn pack(self, cut: usize) -> u64
        requires { AtMost 2 self × (cut ≤ max_places) }
        ensures { result ≡ packed cut self }
    {
        let codes = u64::from(self.first) + Self::CODES * u64::from(self.second);
        cut as u64 + Self::CUTS * (self.count as u64 + Self::COUNTS * codes)
    }

    fn unpack(w: u64) -> Self
        ensures { result ≡ unpacked w }
    {
        let counted = w / Self::CUTS;
        let codes = counted / Self::COUNTS;
        Self {
            count: (counted % Self::COUNTS) as usize,
            first: (codes % Self::CODES) as u32,
            second: (codes / Self::CODES % Self::CODES) as u32,
            third: 0,
        }
    }

    fn cut(w: u64) -> usize
        ensures { result ≡ cut_of w }
    {
        (w % Self::CUTS) as usize
    }
}

impl TreeView<'_> {
    // The first alternative is added to the branch, and what begins to wait is put on top.
    pub fn split(self, first: Alternative, begun: Begun) -> Change
        ensures { result ≡ split_into self.entry.branch.now self.entry.waiting.now first begun }
    {
        Change {
            cut: self.branch.len(),
            adds: first,
            kept: self.waiting.len(),
            begun,
        }
    }

    // The tree as it is.
    pub fn unchanged(self) -> Change
        ensures { result
            ≡ split_into self.entry.branch.now self.entry.waiting.now no_literals Begun.Nothing }
    {
        self.split(Alternative::none(), Begun::Nothing)
    }

    // Checks 15 and 16 of a step: its longest alternative has so many literals, and so many
    // alternatives begin to wait.
    pub fn require_room(self, literals: usize, begun: usize) -> Result<(), Reason>
        requires { InLimits self.branch.now self.waiting.now }
        ensures { result ≡ room_for self.entry.branch.now self.entry.waiting.now literals begun }
    {
        if Tree::PLACES - self.branch.len() < literals {
            return Err(Reason::BranchFull);
        }
        if Tree::WAITING - self.waiting.len() < begun {
            return Err(Reason::WaitingFull);
        }
        Ok(())
    }

    // A step with one alternative.
    pub fn extend(self, a: Alternative) -> Result<Change, Reason>
        requires tree { InLimits self.branch.now self.waiting.now }
        requires literals { AtMost 3 a }
        ensures { Splits self.entry.branch.now self.entry.waiting.now (codes_of a ∷ []) result }
    {
        self.require_room(a.count, 0)?;
        Ok(self.split(a, Begun::Nothing))
    }

    // A step with two alternatives.
    pub fn split2(self, first: Alternative, second: Alternative) -> Result<Change, Reason>
        requires tree { InLimits self.branch.now self.waiting.now }
        requires literals { AtMost 3 first × AtMost 2 second }
        ensures { Splits self.entry.branch.now self.entry.waiting.now
            (codes_of first ∷ codes_of second ∷ []) result }
    {
        self.require_room(first.count.max(second.count), 1)?;
        let cut = self.branch.len();
        Ok(self.split(first, Begun::One(second.pack(cut))))
    }

    // A step with three.
    pub fn split3(
        self,
        first: Alternative,
        second: Alternative,
        third: Alternative,
    ) -> Result<Change, Reason>
        requires tree { InLimits self.branch.now self.waiting.now }
        requires literals { AtMost 3 first × AtMost 2 second × AtMost 2 third }
        ensures { Splits self.entry.branch.now self.entry.waiting.now
            (codes_of first ∷ codes_of second ∷ codes_of third ∷ []) result }
    {
        self.require_room(first.count.max(second.count).max(third.count), 2)?;
        let cut = self.branch.len();
        Ok(self.split(first, Begun::Two(second.pack(cut), third.pack(cut))))
    }

    // A closing step; where no alternative waits, the tree is closed. The lesser of the recorded
    // length and the length asks for no order among the recorded lengths.
    pub fn close(self) -> Option<Change>
        ensures { Closes self.entry.branch.now self.entry.waiting.now result }
    {
        let (top, kept) = self.waiting.split_last()?;
        Some(Change {
            cut: Alternative::cut(*top).min(self.branch.len()),
            adds: Alternative::unpack(*top),
            kept: kept.len(),
            begun: Begun::Nothing,
        })
    }
}

impl Tree {
    pub const PLACES: usize = 1000;

    pub const WAITING: usize = 200;

    pub fn empty() -> Self
        ensures { Within result × ((f : ℕ → Literal) → tree_of f result ≡ root) }
    {
        Self {
            branch: [0; Self::PLACES],
            len: 0,
            waiting: [0; Self::WAITING],
            count: 0,
        }
    }

    pub fn view(&self) -> TreeView<'_>
        requires { Within self.now }
        ensures branch { result.branch.now ≡ codes_in self.now }
        ensures waiting { result.waiting.now ≡ waiting_in self.now }
    {
        TreeView {
            branch: &self.branch[..self.len],
            waiting: &self.waiting[..self.count],
        }
    }

    // check 11
    pub fn has_place(len: usize, place: Place) -> bool
        ensures { HasPlace len place.0 result }
    {
        1 <= place.0 && place.0 <= len
    }

    pub fn literal_at(branch: &[u32], place: Place) -> u32
        requires { AreCodes branch.now × HasPlace (length branch.now) place.0 true }
        ensures { IsAt branch.now place.0 result }
    {
        branch[place.0 - 1]
    }

    // The change of a step. Literals that begin to wait stand in the array.
    pub fn apply(&mut self, change: Change, literals: &[u32; clauses::WORDS])
        requires within { Within self.old }
        requires fits { Fits (codes_in self.old) (waiting_in self.old) change }
        requires literals { ReadsCodes change.begun literals.now }
        ensures { Stored literals.now self.old change self.new }
    {
        self.len = Self::append(&mut self.branch, change.cut, change.adds);
        self.count = Self::push(
            &mut self.waiting,
            change.kept,
            change.cut,
            change.begun,
            literals,
        );
    }

    // The result is the new length. Code by code: a copy of a slice would make the library for C need
    // memcpy from outside.
    pub fn append(branch: &mut [u32; Tree::PLACES], len: usize, a: Alternative) -> usize
        requires { AtMost 3 a × (len + a.count ≤ max_places) }
        ensures count { result ≡ len + a.count }
        ensures after { take result branch.new ≡ take len branch.old ++ codes_of a }
        ensures cells { ((k : ℕ) → get_or branch.old k 0 < code_limit)
            → (k : ℕ) → get_or branch.new k 0 < code_limit }
    {
        match a.count {
            0 => {}
            1 => branch[len] = a.first,
            2 => {
                branch[len] = a.first;
                branch[len + 1] = a.second;
            }
            _ => {
                branch[len] = a.first;
                branch[len + 1] = a.second;
                branch[len + 2] = a.third;
            }
        }
        len + a.count
    }

    // What begins to wait where the branch has `cut` literals. The result is the new count.
    pub fn push(
        waiting: &mut [u64; Tree::WAITING],
        kept: usize,
        cut: usize,
        begun: Begun,
        literals: &[u32; clauses::WORDS],
    ) -> usize
        requires room { (kept + begun_count begun ≤ max_waiting) × MayBegin cut begun }
        requires bounded { ReadsCodes begun literals.now }
        ensures count { result ≡ kept + begun_count begun }
        ensures after { take result waiting.new
            ≡ take kept waiting.old ++ reverse (begun_of literals.now cut begun) }
        ensures stack { ((k : ℕ) → HasRoom (get_or waiting.old k 0))
            → (k : ℕ) → HasRoom (get_or waiting.new k 0) }
    {
        match begun {
            Begun::Nothing => kept,
            Begun::One(only) => {
                waiting[kept] = only;
                kept + 1
            }
            Begun::Two(first, last) => {
                waiting[kept] = last;
                waiting[kept + 1] = first;
                kept + 2
            }
            Begun::Each(span) => {
                let mut count = kept;
                for i in (span.from..span.from + span.count).rev() {
                    waiting[count] = Alternative::one(literals[i]).pack(cut);
                    count += 1;
                }
                count
            }
        }
    }
}
