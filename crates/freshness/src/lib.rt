// The freshness test: does a clause or a literal on the branch mention w, and which first? Row i of
// an array that the caller lends, ROW words from i * ROW on, has a bit for each term, set where a
// clause or one of the first i literals mentions it, so that a test reads one bit. Rows are filled
// when they are asked for; the caller keeps the number of those that still hold.
#![tactic(auto)]

ghost use Rattle.std.specs.Prelude.{◌≡◌, true, List, [], ◌∷◌, ◌++◌, map, ℕ, ◌+◌, ◌%◌, ◌<◌, ◌≤◌, length, option_map};
ghost use Rattle.tableau.specs.Terms.{Table, Clauses, at, mentioned_in, first_place, max_terms};
ghost use Rattle.tableau.specs.Tree.{max_places};
ghost use Rattle.tableau.specs.Steps.{is_rfv, freshness};
ghost use Rattle.packing.specs.Packing.{unpack_literal, left_in, right_in};
ghost use Rattle.table.specs.Held.{Entries};
ghost use Rattle.mentions.specs.Mentions.{row, bit_at, MentionRows, Filled};
ghost use Rattle.freshness.specs.Prefixes.{PrefixRows, SideRow, next_bits};

use mentions::ROW;
use packing::TermView;
use packing::literals::{packed_left, packed_right};
use tableau::{Freshness, Place, Sort, TermNumber};

// A row for each length of the branch, 0 to 1000; row 0 has what the clauses mention.
pub const PREFIX_WORDS: usize = 10010;

// The number whose row says what a literal's side mentions: 0, which mentions nothing, for a number
// that no term has.
fn side_row(n: usize, side: TermNumber) -> usize
    ensures { SideRow n side.0 result }
{
    if side.0 <= n { side.0 } else { 0 }
}

// Those of both sides.
fn side_rows(n: usize, literal: u32) -> (usize, usize)
    ensures { SideRow n (left_in (unpack_literal literal)) result.0
        × SideRow n (right_in (unpack_literal literal)) result.1 }
{
    (
        side_row(n, packed_left(literal)),
        side_row(n, packed_right(literal)),
    )
}

// Fills row i: what an earlier row or row i itself has, and what the two sides mention.
fn fill(
    prefix: &mut [u64; PREFIX_WORDS],
    rows: &[u64; mentions::WORDS],
    from: usize,
    i: usize,
    left: usize,
    right: usize,
)
    requires { (from ≤ i) × (i ≤ max_places) × (left ≤ max_terms) × (right ≤ max_terms) }
    ensures { Filled prefix.old prefix.new i (next_bits prefix.old rows.now from left right) row }
{
    for k in 0..ROW {
        prefix[i * ROW + k] = prefix[from * ROW + k] | rows[left * ROW + k] | rows[right * ROW + k];
    }
}

// A literal more in the clauses: no row of a branch is kept but row 0.
pub fn note_clause(
    prefix: &mut [u64; PREFIX_WORDS],
    rows: &[u64; mentions::WORDS],
    n: usize,
    literal: u32,
)
    requires { n ≤ max_terms }
    ensures { (table : Table) (C : Clauses) (codes : List ℕ) (k : ℕ) → MentionRows table rows.now
        → length table ≡ n → PrefixRows table C codes prefix.old 0
        → PrefixRows table (C ++ (record { clause = k; is = unpack_literal literal } ∷ [])) codes
        prefix.new 0 }
{
    let (left, right) = side_rows(n, literal);
    fill(prefix, rows, 0, 0, left, right);
}

// Fills the rows of the branch's lengths past `noted`.
pub fn note(
    prefix: &mut [u64; PREFIX_WORDS],
    rows: &[u64; mentions::WORDS],
    n: usize,
    branch: &[u32],
    noted: usize,
)
    requires n_le_max_terms { n ≤ max_terms }
    requires noted_le_len { (noted ≤ length branch.now) × (length branch.now ≤ max_places) }
    ensures { (table : Table) (C : Clauses) → MentionRows table rows.now → length table ≡ n
        → PrefixRows table C branch.now prefix.old noted
        → PrefixRows table C branch.now prefix.new (length branch.now) }
{
    for i in noted..branch.len() {
        let (left, right) = side_rows(n, branch[i]);
        fill(prefix, rows, i, i + 1, left, right);
    }
}

// Is w the number of an `rfv`?
fn is_rfv(terms: &[u64; table::NUMBERS], n: usize, w: TermNumber) -> bool
    requires entries { (table : Table) × Entries table terms.now }
    requires n_le_max_terms { n ≤ max_terms }
    ensures w_le_n { result ≡ true → w.0 ≤ n }
    ensures value { (table : Table) → Entries table terms.now → length table ≡ n
        → result ≡ is_rfv (at table w.0) }
{
    w.0 <= n
        && matches!(table::view(terms, w), TermView::Variable(sort, _) if sort == Sort::Reference)
}

// The bit of w, in the word of a row that has it.
fn has_bit(word: u64, w: TermNumber) -> bool
    ensures { result ≡ bit_at word (w.0 % 64) }
{
    (word >> (w.0 % 64)) % 2 == 1
}

// Does the literal mention w, by the rows of its two sides?
fn literal_mentions(rows: &[u64; mentions::WORDS], n: usize, literal: u32, w: TermNumber) -> bool
    requires { (n ≤ max_terms) × (w.0 ≤ n) }
    ensures { (table : Table) → MentionRows table rows.now → length table ≡ n → 0 < w.0
        → result ≡ mentioned_in (at table) w.0 (unpack_literal literal) }
{
    let (left, right) = side_rows(n, literal);
    let k = w.0 / 64;
    has_bit(rows[left * ROW + k] | rows[right * ROW + k], w)
}

// The first place whose literal mentions w.
fn first_place(
    rows: &[u64; mentions::WORDS],
    n: usize,
    branch: &[u32],
    w: TermNumber,
) -> Option<Place>
    requires n_le_max_terms { (n ≤ max_terms) × (w.0 ≤ n) }
    requires len_le_max_places { length branch.now ≤ max_places }
    ensures { (table : Table) → MentionRows table rows.now → length table ≡ n → 0 < w.0
        → option_map (λ p. p.0) result
        ≡ first_place (at table) w.0 (map unpack_literal branch.now) }
{
    branch
        .iter()
        .position(|literal| literal_mentions(rows, n, *literal, w))
        .map(|i| Place(i + 1))
}

// Is the term w fresh: an `rfv` that no clause and no literal of the branch mentions? Their rows
// are filled. A number that no term has is not fresh. The place is searched only where it is to be
// told.
pub fn test(
    terms: &[u64; table::NUMBERS],
    rows: &[u64; mentions::WORDS],
    prefix: &[u64; PREFIX_WORDS],
    n: usize,
    branch: &[u32],
    w: TermNumber,
) -> Freshness
    requires entries { (table : Table) × Entries table terms.now }
    requires n_le_max_terms { n ≤ max_terms }
    requires len_le_max_places { length branch.now ≤ max_places }
    ensures { (table : Table) (C : Clauses) → Entries table terms.now → MentionRows table rows.now
        → length table ≡ n → PrefixRows table C branch.now prefix.now (length branch.now)
        → result ≡ freshness table C (map unpack_literal branch.now) w.0 }
{
    if !is_rfv(terms, n, w) {
        return Freshness::NotFresh(Place(0));
    }
    if !has_bit(prefix[branch.len() * ROW + w.0 / 64], w) {
        return Freshness::Fresh;
    }
    Freshness::NotFresh(first_place(rows, n, branch, w).unwrap_or(Place(0)))
}
