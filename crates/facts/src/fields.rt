// The words of D lines, and the tests of a line's fields by the table of words.
ghost use Rattle.std.specs.Prelude.{◌≡◌};
ghost use Rattle.tableau.specs.Basics.{four, every};
ghost use Rattle.evaluation.specs.Facts.{fact_words, fact_fields, zero_unless_used, in_domain, in_range, subject_part};
ghost use Rattle.lines.specs.Lines.{numbers_of};
ghost use Rattle.words.specs.Words.{lookup_packed};
ghost use Rattle.facts.specs.Keys.{sizes_of, value_part};

use crate::Sizes;
use evaluation::{Domain, FactField, FactWord};
use lines::LineFields;

static WORDS: [FactWord; 10] = [
    FactWord::Siz,
    FactWord::Alc,
    FactWord::Typ,
    FactWord::Dty,
    FactWord::Sub,
    FactWord::Rfv,
    FactWord::Fnv,
    FactWord::Clv,
    FactWord::Rgv,
    FactWord::Arv,
];

pub fn word_of(word: usize) -> Option<FactWord>
    ensures { result ≡ lookup_packed fact_words word }
{
    words::row_of(word, b"siz alc typ dty sub rfv fnv clv rgv arv ", &WORDS)
}

// What the four fields of a line hold.
pub type FactRow = (FactField, FactField, FactField, FactField);

// The table of D lines.
#[tactic(auto, unfolding(evaluation::specs::Facts::fact_fields))]
pub fn row_of(word: FactWord) -> FactRow
    ensures { four result.0 result.1 result.2 result.3 ≡ fact_fields word }
{
    let none = FactField::Unused;
    let reference = FactField::Subject(Domain::Reference);
    let field = FactField::Subject(Domain::Field);
    let class = FactField::Subject(Domain::Class);
    let name = FactField::Subject(Domain::Name);
    let to_reference = FactField::Value(Domain::Reference);
    let to_field = FactField::Value(Domain::Field);
    let to_class = FactField::Value(Domain::Class);
    match word {
        FactWord::Siz => (
            FactField::Size(64),
            FactField::Size(16),
            FactField::Size(16),
            none,
        ),
        FactWord::Alc => (reference, none, none, none),
        FactWord::Typ => (reference, to_class, none, none),
        FactWord::Dty => (field, to_class, none, none),
        FactWord::Sub => (class, class, none, none),
        FactWord::Rfv => (name, to_reference, none, none),
        FactWord::Fnv => (name, to_field, none, none),
        FactWord::Clv => (name, to_class, none, none),
        FactWord::Rgv => (name, reference, none, none),
        FactWord::Arv => (name, reference, field, to_reference),
    }
}

// Check 6: a field that the word doesn't use holds 0.
fn zero_unless_used(field: FactField, n: usize) -> bool
    ensures { result ≡ zero_unless_used field n }
{
    match field {
        FactField::Unused => n == 0,
        _ => true,
    }
}

pub fn unused_zero(row: FactRow, f: LineFields) -> bool
    ensures { result ≡ every zero_unless_used (four row.0 row.1 row.2 row.3) (numbers_of f) }
{
    let (a, b, c, d) = row;
    zero_unless_used(a, f.a)
        && zero_unless_used(b, f.b)
        && zero_unless_used(c, f.c)
        && zero_unless_used(d, f.d)
}

// Check 19: a number in its range.
fn in_domain(sizes: Sizes, domain: Domain, n: usize) -> bool
    ensures { result ≡ in_domain (sizes_of sizes) domain n }
{
    match domain {
        Domain::Reference => n < sizes.references,
        Domain::Field => n < sizes.fields,
        Domain::Class => n < sizes.classes,
        Domain::Name => 1 <= n,
    }
}

fn in_range(sizes: Sizes, field: FactField, n: usize) -> bool
    ensures { result ≡ in_range (sizes_of sizes) field n }
{
    match field {
        FactField::Unused => true,
        FactField::Size(most) => 1 <= n && n <= most,
        FactField::Subject(domain) | FactField::Value(domain) => in_domain(sizes, domain, n),
    }
}

pub fn all_in_range(sizes: Sizes, row: FactRow, f: LineFields) -> bool
    ensures { result ≡ every (in_range (sizes_of sizes)) (four row.0 row.1 row.2 row.3)
        (numbers_of f) }
{
    let (a, b, c, d) = row;
    in_range(sizes, a, f.a)
        && in_range(sizes, b, f.b)
        && in_range(sizes, c, f.c)
        && in_range(sizes, d, f.d)
}

// A field as a part of the subject, and as the value.
pub fn subject_part(field: FactField, n: usize) -> usize
    ensures { result ≡ subject_part field n }
{
    match field {
        FactField::Subject(_) => n,
        _ => 0,
    }
}

pub fn value_part(field: FactField, n: usize) -> usize
    ensures { result ≡ value_part field n }
{
    match field {
        FactField::Value(_) => n,
        _ => 0,
    }
}
