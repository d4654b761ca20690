// What a line says, taken apart by its word: from here on a field is a place, the number of a term
// or of a clause, a name or a side.
#![tactic(auto)]

use tableau::{ClauseNumber, Name, Operator, Place, Relation, Rule, Side, Sort, TermNumber};

// The arguments of an operator; one that it does not take is 0.
#[derive(Clone, Copy)]
pub struct Arguments {
    pub a: TermNumber,
    pub b: TermNumber,
    pub c: TermNumber,
    pub d: TermNumber,
}

// A T line: the term that it writes.
#[derive(Clone, Copy)]
pub enum Term {
    Variable(Sort, Name),
    Apply(Operator, Arguments),
}

// An A or C line: its literal. A rule adds such literals too.
#[derive(Clone, Copy)]
pub struct Literal {
    pub relation: Relation,
    pub left: TermNumber,
    pub right: TermNumber,
}

// Which of the fields 3 to 6 a word uses: the sum of the bits of those that it does.
#[derive(Clone, Copy)]
pub struct Mask(pub u8);

impl Mask {
    pub const P: u8 = 1;

    pub const Q: u8 = 2;

    pub const T: u8 = 4;

    pub const W: u8 = 8;
}

// Field t of an S line: in `rep` a side, in `cla` the number of a clause, else a term.
#[derive(Clone, Copy)]
pub enum ThirdField {
    Term(TermNumber),
    Side(Side),
    Clause(ClauseNumber),
}

// An S line: its rule with the fields that the rule uses, places p and q, terms t and w; a field
// that it does not use is 0.
#[derive(Clone, Copy)]
pub struct Step {
    pub rule: Rule,
    pub used: Mask,
    pub p: Place,
    pub q: Place,
    pub t: ThirdField,
    pub w: TermNumber,
}
