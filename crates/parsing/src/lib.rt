// A line taken apart by its word, once check 6 has passed: "A field that the word doesn't use holds
// `0`."
#![tactic(auto)]

ghost use Rattle.std.specs.Prelude.{◌||◌, not, ◌≡◌, eqb};
ghost use Rattle.std.specs.Int.Bits.{bit_and};
ghost use Rattle.tableau.specs.Basics.{Four, every};
ghost use Rattle.tableau.specs.Fields.{Use, rule_fields};
ghost use Rattle.tableau.specs.declared.Relation.{Relation as Relations};
ghost use Rattle.tableau.specs.Reply.{zero_if_unused};
ghost use Rattle.syntax.specs.Syntax.{mask_of, third_in, ThirdFits};
ghost use Rattle.lines.specs.Lines.{numbers_of};
ghost use Rattle.words.specs.Words.{WordFits, RuleFits};
ghost use Rattle.parsing.specs.Taken.{literal_fields, TermTakenAs, LiteralTakenAs, StepTakenAs};

use lines::LineFields;
use syntax::{Arguments, Literal, Mask, Step, Term, ThirdField};
use tableau::{ClauseNumber, Letter, Name, Place, Reason, Relation, Rule, Side, TermNumber, Word};
use words::Row;

fn zero_if_unused(used: Mask, bit: u8, value: usize) -> bool
    ensures { result ≡ (not (eqb (bit_and used.0 bit) 0) || eqb value 0) }
{
    used.0 & bit != 0 || value == 0
}

// Check 6 for any word, by the mask of its fields.
fn unused_zero(used: Mask, f: LineFields) -> bool
    ensures { (u : Four Use) → used.0 ≡ mask_of u → result ≡ every zero_if_unused u (numbers_of f) }
{
    zero_if_unused(used, Mask::P, f.a)
        && zero_if_unused(used, Mask::Q, f.b)
        && zero_if_unused(used, Mask::T, f.c)
        && zero_if_unused(used, Mask::W, f.d)
}

// A T line.
pub fn term_of(row: Row<Word>, f: LineFields) -> Result<Term, Reason>
    requires { WordFits row }
    ensures { TermTakenAs row.word (numbers_of f) result }
{
    if !unused_zero(row.used, f) {
        return Err(Reason::UnusedField);
    }
    match row.word {
        Word::Variable(sort) => Ok(Term::Variable(sort, Name(f.a))),
        Word::Operation(operator) => Ok(Term::Apply(
            operator,
            Arguments {
                a: TermNumber(f.a),
                b: TermNumber(f.b),
                c: TermNumber(f.c),
                d: TermNumber(f.d),
            },
        )),
    }
}

// Every relation has two sides; a C line has the number of its clause besides.
fn literal_mask(letter: Letter) -> Mask
    ensures { (R : Relations) → result.0 ≡ mask_of (literal_fields letter R) }
{
    match letter {
        Letter::C => Mask(Mask::P | Mask::Q | Mask::T),
        _ => Mask(Mask::P | Mask::Q),
    }
}

// A line that holds a literal, by its letter: an A or a C line.
pub fn literal_of(letter: Letter, relation: Relation, f: LineFields) -> Result<Literal, Reason>
    ensures { LiteralTakenAs (literal_fields letter relation) relation (numbers_of f) result }
{
    if !unused_zero(literal_mask(letter), f) {
        return Err(Reason::UnusedField);
    }
    Ok(Literal {
        relation,
        left: TermNumber(f.a),
        right: TermNumber(f.b),
    })
}

// "The t of `rep` is a side", that of `cla` a clause number; in any other rule it is a term.
fn third_of(rule: Rule, t: usize) -> ThirdField
    ensures { (ThirdFits (rule_fields rule).t result) × (third_in result ≡ t) }
{
    match rule {
        Rule::Rep => ThirdField::Side(Side(t)),
        Rule::Cla => ThirdField::Clause(ClauseNumber(t)),
        _ => ThirdField::Term(TermNumber(t)),
    }
}

// An S line.
pub fn step_of(row: Row<Rule>, f: LineFields) -> Result<Step, Reason>
    requires { RuleFits row }
    ensures { StepTakenAs row.word (numbers_of f) result }
{
    if !unused_zero(row.used, f) {
        return Err(Reason::UnusedField);
    }
    Ok(Step {
        rule: row.word,
        used: row.used,
        p: Place(f.a),
        q: Place(f.b),
        t: third_of(row.word, f.c),
        w: TermNumber(f.d),
    })
}
