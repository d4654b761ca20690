// The letters of a checker file, and the words of T, A, C and S lines: what each stands for, and
// the fields that it uses. A letter's words stand in one fixed byte string, in the order of its
// table.
#![tactic(auto)]

ghost use Rattle.std.specs.Prelude.{[], ◌∷◌, ◌≡◌, option_map, position, take, ◌==◌};
ghost use Rattle.tableau.specs.Basics.{lookup};
ghost use Rattle.tableau.specs.File.{letters};
ghost use Rattle.tableau.specs.Words.{words, relations, rule_names};
ghost use Rattle.lines.specs.Lines.{pack_word};
ghost use Rattle.words.specs.Words.{lookup_packed, word_row, rule_row, words_of, row_at};

use syntax::Mask;
use tableau::{Letter, Operator, Relation, Rule, Sort, Word};

// What a word stands for, and the fields that it uses.
#[derive(Clone, Copy)]
pub struct Row<W> {
    pub word: W,
    pub used: Mask,
}

#[tactic(auto, using(std::proofs::lemmas::Bool::Decides::nat_tests), unfolding(tableau::specs::Basics::lookup, tableau::specs::Basics::same_bytes, tableau::specs::Basics::bytes, tableau::specs::File::letters))]
pub fn letter_of(letter: u8) -> Option<Letter>
    ensures { result ≡ lookup letters (letter ∷ []) }
{
    match letter {
        b'T' => Some(Letter::T),
        b'A' => Some(Letter::A),
        b'C' => Some(Letter::C),
        b'S' => Some(Letter::S),
        _ => None,
    }
}

// A table of rows, one a line.
macro_rules! rows {
    ($($word:expr => $used:expr,)*) => {
        [$(Row { word: $word, used: Mask($used) },)*]
    };
}

static WORDS: [Row<Word>; 17] = rows![
    Word::Operation(Operator::Nul) => 0,
    Word::Variable(Sort::Reference) => Mask::P,
    Word::Operation(Operator::Rea) => Mask::P | Mask::Q | Mask::T,
    Word::Operation(Operator::Emp) => 0,
    Word::Operation(Operator::All) => 0,
    Word::Variable(Sort::Region) => Mask::P,
    Word::Operation(Operator::Cup) => Mask::P | Mask::Q,
    Word::Operation(Operator::Cap) => Mask::P | Mask::Q,
    Word::Operation(Operator::Dif) => Mask::P | Mask::Q,
    Word::Operation(Operator::Sin) => Mask::P,
    Word::Operation(Operator::Img) => Mask::P | Mask::Q | Mask::T,
    Word::Variable(Sort::Heap) => Mask::P,
    Word::Operation(Operator::Wri) => Mask::P | Mask::Q | Mask::T | Mask::W,
    Word::Variable(Sort::Field) => Mask::P,
    Word::Variable(Sort::Class) => Mask::P,
    Word::Operation(Operator::Typ) => Mask::P,
    Word::Operation(Operator::Dty) => Mask::P,
];

static RELATIONS: [Relation; 6] = [
    Relation::In,
    Relation::Ni,
    Relation::Eq,
    Relation::Ne,
    Relation::Le,
    Relation::Nl,
];

// "Which fields each rule uses is one fixed table of [thirty-two] rows."
static RULES: [Row<Rule>; 32] = rows![
    Rule::Eqr => Mask::P | Mask::Q,
    Rule::Eql => Mask::P | Mask::Q,
    Rule::Ext => Mask::P | Mask::W,
    Rule::Cpe => Mask::P,
    Rule::Cpi => Mask::P | Mask::Q | Mask::T,
    Rule::Cue => Mask::P,
    Rule::Cui => Mask::P | Mask::T,
    Rule::Dfe => Mask::P,
    Rule::Dfi => Mask::P | Mask::Q | Mask::T,
    Rule::Sge => Mask::P,
    Rule::Sgi => Mask::T,
    Rule::Cut => Mask::T | Mask::W,
    Rule::All => Mask::P,
    Rule::Nul => Mask::P,
    Rule::Sep => Mask::P | Mask::Q,
    Rule::Img => Mask::P | Mask::T,
    Rule::Wit => Mask::P | Mask::W,
    Rule::Ref => Mask::T,
    Rule::Sym => Mask::P,
    Rule::Trn => Mask::P | Mask::Q,
    Rule::Sub => Mask::P | Mask::T | Mask::W,
    Rule::Rep => Mask::P | Mask::Q | Mask::T,
    Rule::Ler => Mask::T,
    Rule::Let => Mask::P | Mask::Q,
    Rule::Lea => Mask::P | Mask::Q,
    Rule::Rdh => Mask::T,
    Rule::Rdm => Mask::T,
    Rule::Cls => Mask::P | Mask::Q,
    Rule::Emp => Mask::P,
    Rule::Bck => 0,
    Rule::Cla => Mask::T,
    Rule::Fin => Mask::P,
];

fn pack(a: u8, b: u8, c: u8) -> usize
    ensures { result ≡ pack_word (a ∷ b ∷ c ∷ []) }
{
    usize::from(a) + 256 * usize::from(b) + 65536 * usize::from(c)
}

// The place of a packed word among texts of four bytes: its own, and one behind.
fn place_of(word: usize, texts: &[[u8; 4]]) -> Option<usize>
    ensures { result ≡ position (λ t. word == pack_word (take 3 t)) texts.now }
{
    texts
        .iter()
        .position(|[a, b, c, _]| word == pack(*a, *b, *c))
}

// The row of a packed word, by its place in a byte string of words: three bytes each, the third 0
// in a word of two letters, and a space.
pub fn row_of<T: Copy, const N: usize>(word: usize, words: &[u8], rows: &[T; N]) -> Option<T>
    ensures { result ≡ row_at word (words_of words.now) rows.now }
{
    let (texts, _) = words.as_chunks::<4>();
    rows.get(place_of(word, texts)?).copied()
}

// A word of a T line.
pub fn word_of(word: usize) -> Option<Row<Word>>
    ensures { result ≡ option_map word_row (lookup_packed words word) }
{
    row_of(
        word,
        b"nul rfv rea emp all rgv cup cap dif sin img arv wri fnv clv typ dty ",
        &WORDS,
    )
}

// A word of an A or C line.
pub fn relation_of(word: usize) -> Option<Relation>
    ensures { result ≡ lookup_packed relations word }
{
    row_of(word, b"in\0 ni\0 eq\0 ne\0 le\0 nl\0 ", &RELATIONS)
}

// A word of an S line.
pub fn rule_of(word: usize) -> Option<Row<Rule>>
    ensures { result ≡ option_map rule_row (lookup_packed rule_names word) }
{
    row_of(
        word,
        b"eqr eql ext cpe cpi cue cui dfe dfi sge sgi cut all nul sep img wit ref sym trn sub rep \
          ler let lea rdh rdm cls emp bck cla fin ",
        &RULES,
    )
}
