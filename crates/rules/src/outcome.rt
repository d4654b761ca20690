// What a rule concludes, its literals packed.
ghost use Rattle.std.specs.Prelude.{◌≡◌, [], ◌∷◌};
ghost use Rattle.syntax.specs.Syntax.{literal_in};
ghost use Rattle.packing.specs.Packing.{PackableLiteral};
ghost use Rattle.rules.specs.Answer.{literal_with, Forms, Builds};

use packing::literals::pack;
use syntax::Literal;
use tableau::{Relation, TermNumber};
use tree::Alternative;

// What a rule makes of a branch: it closes, or goes on by alternatives.
#[derive(Clone, Copy)]
pub enum Outcome {
    Closes,
    Adds(Alternative),
    Splits(Alternative, Alternative),
    SplitsThree(Alternative, Alternative, Alternative),
}

pub fn literal(relation: Relation, left: TermNumber, right: TermNumber) -> Literal
    ensures { result ≡ literal_with relation left right }
{
    Literal {
        relation,
        left,
        right,
    }
}

fn one(l: Literal) -> Alternative
    requires { PackableLiteral (literal_in l) }
    ensures { Forms 1 result (literal_in l ∷ []) }
{
    Alternative::one(pack(l))
}

fn two(l: Literal, m: Literal) -> Alternative
    requires { PackableLiteral (literal_in l) × PackableLiteral (literal_in m) }
    ensures { Forms 2 result (literal_in l ∷ literal_in m ∷ []) }
{
    Alternative::two(pack(l), pack(m))
}

fn three(l: Literal, m: Literal, n: Literal) -> Alternative
    requires { PackableLiteral (literal_in l) × PackableLiteral (literal_in m)
        × PackableLiteral (literal_in n) }
    ensures { Forms 3 result (literal_in l ∷ literal_in m ∷ literal_in n ∷ []) }
{
    Alternative::three(pack(l), pack(m), pack(n))
}

pub fn adds_one(l: Literal) -> Outcome
    requires { PackableLiteral (literal_in l) }
    ensures { Builds result ((literal_in l ∷ []) ∷ []) }
{
    Outcome::Adds(one(l))
}

// l, m
pub fn adds_two(l: Literal, m: Literal) -> Outcome
    requires { PackableLiteral (literal_in l) × PackableLiteral (literal_in m) }
    ensures { Builds result ((literal_in l ∷ literal_in m ∷ []) ∷ []) }
{
    Outcome::Adds(two(l, m))
}

// l, m, n
pub fn adds_three(l: Literal, m: Literal, n: Literal) -> Outcome
    requires { PackableLiteral (literal_in l) × PackableLiteral (literal_in m)
        × PackableLiteral (literal_in n) }
    ensures { Builds result ((literal_in l ∷ literal_in m ∷ literal_in n ∷ []) ∷ []) }
{
    Outcome::Adds(three(l, m, n))
}

// l ∥ m
pub fn splits(l: Literal, m: Literal) -> Outcome
    requires { PackableLiteral (literal_in l) × PackableLiteral (literal_in m) }
    ensures { Builds result ((literal_in l ∷ []) ∷ (literal_in m ∷ []) ∷ []) }
{
    Outcome::Splits(one(l), one(m))
}

// l, m ∥ n
pub fn splits_two_one(l: Literal, m: Literal, n: Literal) -> Outcome
    requires { PackableLiteral (literal_in l) × PackableLiteral (literal_in m)
        × PackableLiteral (literal_in n) }
    ensures { Builds result ((literal_in l ∷ literal_in m ∷ []) ∷ (literal_in n ∷ []) ∷ []) }
{
    Outcome::Splits(two(l, m), one(n))
}

// l, m ∥ n, o
pub fn splits_two_two(l: Literal, m: Literal, n: Literal, o: Literal) -> Outcome
    requires packable_literal { PackableLiteral (literal_in l) × PackableLiteral (literal_in m) }
    requires packable_literal_2 { PackableLiteral (literal_in n) × PackableLiteral (literal_in o) }
    ensures { Builds result ((literal_in l ∷ literal_in m ∷ [])
        ∷ (literal_in n ∷ literal_in o ∷ []) ∷ []) }
{
    Outcome::Splits(two(l, m), two(n, o))
}

// l ∥ m ∥ n
pub fn splits_three(l: Literal, m: Literal, n: Literal) -> Outcome
    requires { PackableLiteral (literal_in l) × PackableLiteral (literal_in m)
        × PackableLiteral (literal_in n) }
    ensures { Builds result ((literal_in l ∷ []) ∷ (literal_in m ∷ []) ∷ (literal_in n ∷ []) ∷ []) }
{
    Outcome::SplitsThree(one(l), one(m), one(n))
}
