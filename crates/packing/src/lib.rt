// A term and a literal as one number each, and taken apart again, so that a rule can unpack what it
// needs by `let .. else`. The layout of the numbers is known here alone.
#![tactic(auto)]

use tableau::{Name, Sort, TermNumber};

pub mod literals;
pub mod term_codes;

// A term taken apart.
#[derive(Clone, Copy)]
pub enum TermView {
    Variable(Sort, Name),
    Nul,
    Rea(TermNumber, TermNumber, TermNumber),
    Emp,
    All,
    Cup(TermNumber, TermNumber),
    Cap(TermNumber, TermNumber),
    Dif(TermNumber, TermNumber),
    Sin(TermNumber),
    Img(TermNumber, TermNumber, TermNumber),
    Wri(TermNumber, TermNumber, TermNumber, TermNumber),
    Typ(TermNumber),
    Dty(TermNumber),
}

// A literal taken apart.
#[derive(Clone, Copy)]
pub enum LiteralView {
    In(TermNumber, TermNumber),
    Ni(TermNumber, TermNumber),
    Eq(TermNumber, TermNumber),
    Ne(TermNumber, TermNumber),
    Le(TermNumber, TermNumber),
    Nl(TermNumber, TermNumber),
}
