// The words of heap files, in the order of document 02. The specification in specs/ gives them
// their meaning; code above this crate uses the same types.
#![tactic(auto)]

// The words of D lines.
#[derive(Clone, Copy, PartialEq, Eq)]
pub enum FactWord {
    Siz,
    Alc,
    Typ,
    Dty,
    Sub,
    Rfv,
    Fnv,
    Clv,
    Rgv,
    Arv,
}

// What a number of a D line counts: references, fields and classes, "all counted from 0", or names,
// from 1.
#[derive(Clone, Copy)]
pub enum Domain {
    Reference,
    Field,
    Class,
    Name,
}

// What a field of a D line holds: nothing; a size, from 1 to a limit; a part of what the line
// speaks of, its subject; the value that the line gives to the subject.
#[derive(Clone, Copy)]
pub enum FactField {
    Unused,
    Size(usize),
    Subject(Domain),
    Value(Domain),
}
