// The words of document 01, in its order, and those that document 02 adds. The specification in specs/ gives them their meaning; code above this crate uses the same types.
#![tactic(auto)]

// "Field 1 is one of the letters T, A, [C], S."
#[derive(Clone, Copy, PartialEq, Eq, PartialOrd, Ord)]
pub enum Letter {
    T,
    A,
    C,
    S,
}

// The sorts of terms.
#[derive(Clone, Copy, PartialEq, Eq)]
pub enum Sort {
    Reference,
    Region,
    Heap,
    Field,
    Class,
}

// The words whose arguments are terms.
#[derive(Clone, Copy, PartialEq, Eq)]
pub enum Operator {
    Nul,
    Rea,
    Emp,
    All,
    Cup,
    Cap,
    Dif,
    Sin,
    Img,
    Wri,
    Typ,
    Dty,
}

// A word of a T line: rfv, rgv, arv, fnv and clv make the variables, one word for each sort; the others are operators.
#[derive(Clone, Copy, PartialEq, Eq)]
pub enum Word {
    Variable(Sort),
    Operation(Operator),
}

// The words of A and C lines.
#[derive(Clone, Copy, PartialEq, Eq)]
pub enum Relation {
    In,
    Ni,
    Eq,
    Ne,
    Le,
    Nl,
}

// The words of S lines: the rules. Those that close stand side by side, so that one comparison tells them.
#[derive(Clone, Copy, PartialEq, Eq)]
pub enum Rule {
    Eqr,
    Eql,
    Ext,
    Cpe,
    Cpi,
    Cue,
    Cui,
    Dfe,
    Dfi,
    Sge,
    Sgi,
    Cut,
    All,
    Nul,
    Sep,
    Img,
    Wit,
    Ref,
    Sym,
    Trn,
    Sub,
    Rep,
    Ler,
    Let,
    Lea,
    Rdh,
    Rdm,
    Cls,
    Emp,
    Bck,
    Cla,
    Fin,
}

// Why a file is refused, in the order of the refusal numbers 1 to 21.
#[derive(Clone, Copy)]
pub enum Reason {
    TooLong,
    BadShape,
    LetterOrder,
    UnknownWord,
    TreeClosed,
    UnusedField,
    TooManyTerms,
    NoSuchTerm,
    WrongSort,
    TermRepeated,
    NoSuchPlace,
    NeedNotMet,
    // With the first place that mentions w; 0 where w is no `rfv`, or only a clause mentions it.
    NotFresh(Place),
    TermNotMade,
    BranchFull,
    WaitingFull,
    BranchOpen,
    BufferLength,
    BadFact,
    NotAnOrder,
    BadClause,
}

// A refusal: why, and the number of the line.
#[derive(Clone, Copy)]
pub struct Refusal {
    pub reason: Reason,
    pub line: usize,
}

// Whether w is fresh; where it isn't, with the place that the reason `NotFresh` has.
#[derive(Clone, Copy)]
pub enum Freshness {
    Fresh,
    NotFresh(Place),
}

// "Places, term numbers and names are three separate kinds of count throughout": a place on the branch, the number of a term, the name of
// a variable. Places and term numbers count from 1.
#[derive(Clone, Copy, PartialEq, Eq)]
pub struct Place(pub usize);

#[derive(Clone, Copy, PartialEq, Eq)]
pub struct TermNumber(pub usize);

#[derive(Clone, Copy, PartialEq, Eq)]
pub struct Name(pub usize);

// The number of a clause, from 1.
#[derive(Clone, Copy, PartialEq, Eq)]
pub struct ClauseNumber(pub usize);

// The t of `rep`, a side of a literal: "1 left, 2 right".
#[derive(Clone, Copy, PartialEq, Eq)]
pub struct Side(pub usize);
