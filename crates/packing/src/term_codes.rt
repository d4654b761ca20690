// Terms as numbers. Powers of two stand as factors, so that a field is taken out by a shift.
ghost use Rattle.std.specs.Prelude.{◌≡◌, ◌&&◌, ◌+◌, ◌*◌, ◌<◌, ◌%◌};
ghost use Rattle.tableau.specs.Basics.{every};
ghost use Rattle.tableau.specs.Terms.{sort_of, same_sort};
ghost use Rattle.tableau.specs.Terms as specification;
ghost use Rattle.tableau.specs.Steps as rule;
ghost use Rattle.syntax.specs.Syntax.{arguments_in, term_in};
ghost use Rattle.packing.specs.Packing.{pack_term, unpack_term, word_bits, Packable, Packs};
ghost use Rattle.packing.specs.Packing.{view_of, takes_arguments, fields_in, with_fields, AllSmall};

use crate::TermView;
use syntax::{Arguments, Term};
use tableau::{Name, Operator, Sort, TermNumber, Word};

// The low bits, with the word and the sort, are below LOW; above them a field is one of FIELD
// numbers. The fourth field is the lowest.
const LOW: u64 = 256;

const FIELD: u64 = 1024;

const THIRD: u64 = 262144;

const SECOND: u64 = 268435456;

const FIRST: u64 = 274877906944;

// The sort of an operator's terms.
#[tactic(auto, unfolding(tableau::specs::Terms::result))]
fn result_sort(operator: Operator) -> Sort
    ensures { result ≡ specification.result operator }
{
    match operator {
        Operator::Nul | Operator::Rea => Sort::Reference,
        Operator::Emp
        | Operator::All
        | Operator::Cup
        | Operator::Cap
        | Operator::Dif
        | Operator::Sin
        | Operator::Img => Sort::Region,
        Operator::Wri => Sort::Heap,
        Operator::Typ | Operator::Dty => Sort::Class,
    }
}

// The low bits: the code of the word and, below it, the sort. The operators have the first codes.
fn low_bits(word: Word) -> u64
    ensures { (result ≡ word_bits word) × (result < 256) }
{
    match word {
        Word::Variable(sort) => (12 + sort as u64) * 8 + sort as u64,
        Word::Operation(operator) => operator as u64 * 8 + result_sort(operator) as u64,
    }
}

// The packed term with other numbers for its arguments.
pub fn with_fields(packed: u64, k: Arguments) -> u64
    requires { AllSmall (arguments_in k) }
    ensures { result ≡ with_fields packed (arguments_in k) }
{
    (((k.a.0 as u64 * FIELD + k.b.0 as u64) * FIELD + k.c.0 as u64) * FIELD + k.d.0 as u64) * LOW
        + packed % LOW
}

#[tactic(auto, unfolding(crate::specs::Packing::pack_term))]
pub fn pack(term: Term) -> u64
    requires { Packable (term_in term) }
    ensures { result ≡ pack_term (term_in term) }
{
    match term {
        Term::Variable(sort, name) => name.0 as u64 * FIRST + low_bits(Word::Variable(sort)),
        Term::Apply(operator, k) => with_fields(low_bits(Word::Operation(operator)), k),
    }
}

#[tactic(auto, using(crate::proofs::PackingLaws::view_coded_last), unfolding(crate::specs::Packing::unpack_term, crate::specs::Packing::word_at, crate::specs::Packing::view_apply))]
pub fn view(packed: u64) -> TermView
    ensures { result ≡ view_of (unpack_term packed) }
{
    let first = (packed / FIRST) as usize;
    let name = Name(first);
    let a = TermNumber(first);
    let b = TermNumber((packed / SECOND % FIELD) as usize);
    let c = TermNumber((packed / THIRD % FIELD) as usize);
    let d = TermNumber((packed / LOW % FIELD) as usize);
    match packed / 8 % 32 {
        0 => TermView::Nul,
        1 => TermView::Rea(a, b, c),
        2 => TermView::Emp,
        3 => TermView::All,
        4 => TermView::Cup(a, b),
        5 => TermView::Cap(a, b),
        6 => TermView::Dif(a, b),
        7 => TermView::Sin(a),
        8 => TermView::Img(a, b, c),
        9 => TermView::Wri(a, b, c, d),
        10 => TermView::Typ(a),
        11 => TermView::Dty(a),
        12 => TermView::Variable(Sort::Reference, name),
        13 => TermView::Variable(Sort::Region, name),
        14 => TermView::Variable(Sort::Heap, name),
        15 => TermView::Variable(Sort::Field, name),
        _ => TermView::Variable(Sort::Class, name),
    }
}

// The sort of a packed term.
#[tactic(auto, using(crate::proofs::Tags::sort_coded), unfolding(crate::proofs::Tags::sort_at))]
pub fn sort(packed: u64) -> Sort
    ensures { (e : specification.Term) → packed ≡ pack_term e → result ≡ sort_of e }
{
    match packed % 8 {
        0 => Sort::Reference,
        1 => Sort::Region,
        2 => Sort::Heap,
        3 => Sort::Field,
        _ => Sort::Class,
    }
}

// Is the packed term of the given sort?
#[tactic(auto, using(crate::proofs::Tags::sort_tag, crate::proofs::PackingLaws::pack_sort))]
pub fn has_sort(packed: u64, sort: Sort) -> bool
    ensures { (e : specification.Term) → packed ≡ pack_term e
        → result ≡ same_sort sort (sort_of e) }
{
    sort as u64 == packed % 8
}

// The arguments of a packed term, cut to what a field has room for.
pub fn fields(packed: u64) -> Arguments
    ensures { arguments_in result ≡ fields_in packed }
{
    Arguments {
        a: TermNumber((packed / FIRST % FIELD) as usize),
        b: TermNumber((packed / SECOND % FIELD) as usize),
        c: TermNumber((packed / THIRD % FIELD) as usize),
        d: TermNumber((packed / LOW % FIELD) as usize),
    }
}

// The word of a packed term has arguments, and they are terms.
pub fn takes_terms(packed: u64) -> bool
    ensures { result ≡ takes_arguments packed }
{
    matches!(packed / 8 % 32, 1 | 4..=11)
}

// Two arguments agree, or are a and b.
fn agree(a: TermNumber, b: TermNumber, m: TermNumber, n: TermNumber) -> bool
    ensures { result ≡ rule.agree a.0 b.0 m.0 n.0 }
{
    m == n || m == a && n == b
}

fn all_agree(a: TermNumber, b: TermNumber, k: Arguments, l: Arguments) -> bool
    ensures { result ≡ every (rule.agree a.0 b.0) (arguments_in k) (arguments_in l) }
{
    agree(a, b, k.a, l.a) && agree(a, b, k.b, l.b) && agree(a, b, k.c, l.c) && agree(a, b, k.d, l.d)
}

// What `sub` asks of the packed terms x and y: one word, that has at least one argument, and terms
// and not a name for them; at each argument they agree, or x has a and y has b.
pub fn congruent(a: TermNumber, b: TermNumber, x: u64, y: u64) -> bool
    ensures { (e f : specification.Term) → Packs e x → Packs f y
        → result ≡ rule.congruent a.0 b.0 e f }
{
    takes_terms(x) && x % LOW == y % LOW && all_agree(a, b, fields(x), fields(y))
}
