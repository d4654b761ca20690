// The table of terms, in two arrays that the caller lends. terms[t] is the packed term t. chains[h]
// is the last term with the hash h, and chains[HASHES + t] the one before t with the same hash (0:
// none).
#![tactic(auto)]

ghost use Rattle.std.specs.Prelude.{◌≡◌, List, ℕ, ◌+◌, ◌^◌, ◌<◌, ◌≤◌, length, get_or, set};
ghost use Rattle.tableau.specs.Terms.{Table, at, number_of, sort_of, same_sort, max_terms};
ghost use Rattle.tableau.specs.Terms as specification;
ghost use Rattle.syntax.specs.Syntax.{term_in};
ghost use Rattle.packing.specs.Packing.{Packable, Packs, Small};
ghost use Rattle.table.specs.Held.{Entries, Chains, Searchable, Seeking, Sought, AmongFour, Absent};
ghost use Rattle.table.specs.Held.{hashes, mixed, hash_of, found_of, ViewAt, FoundAs};

use packing::TermView;
use packing::term_codes::pack;
use syntax::Term;
use tableau::{Sort, TermNumber};

// "terms numbered from 1, at most 600"
pub const TERMS: usize = 600;

// A packed literal has room for the numbers below this, so that the number of a term needs no test
// before it is an index.
pub const NUMBERS: usize = 1024;

pub const HASHES: usize = 1024;

// A head for each hash, and a link for each number up to 600.
pub const LINKS: usize = 1625;

// 2^28
const HALF: u64 = 268435456;

// 2^25
const BELOW: u64 = 33554432;

// The factors of the terms' hash: odd, so that each bit counts, and chosen so that the terms of
// ordinary files fall into short chains.
const LOW_FACTOR: u64 = 26004655931;

const HIGH_FACTOR: u64 = 33930833365;

// How many terms of a chain are looked at before the rest is scanned: whatever terms a file has, a
// search costs no more than a scan and these.
const HOPS: usize = 4;

// A hash is bits 25 to 34 of a sum of products, one of the low and one of the high bits of a packed
// term. The factors are small enough that the sum fits.
pub fn hash(packed: u64, low_factor: u64, high_factor: u64) -> usize
    requires { (low_factor < 2 ^ 35) × (high_factor < 2 ^ 35) }
    ensures { (result ≡ mixed low_factor high_factor packed) × (result < hashes) }
{
    ((packed % HALF * low_factor + packed / HALF % HALF * high_factor) / BELOW
        % HASHES as u64) as usize
}

// That of a term.
#[tactic(auto, unfolding(crate::specs::Held::hash_of))]
fn term_hash(packed: u64) -> usize
    ensures { (result ≡ hash_of packed) × (result < hashes) }
{
    hash(packed, LOW_FACTOR, HIGH_FACTOR)
}

// Is the packed term one of the four from t on?
fn among_four(terms: &[u64; NUMBERS], t: usize, packed: u64) -> bool
    requires { Small (t + 3) }
    ensures { AmongFour terms.now packed t result }
{
    terms[t] == packed || terms[t + 1] == packed || terms[t + 2] == packed || terms[t + 3] == packed
}

// Looks at the terms from `first` to `last` in their order, where a search stands that has passed
// the others.
fn scan_from(terms: &[u64; NUMBERS], first: usize, last: usize, packed: u64) -> Option<TermNumber>
    requires { Small last × (0 < first) × Absent terms.now packed 1 first }
    ensures { (n : ℕ) → Seeking terms.now n packed last → Sought terms.now n packed result }
{
    for t in first..=last {
        if terms[t] == packed {
            return Some(TermNumber(t));
        }
    }
    None
}

// The same from the first term on, by fours: a test less for each term.
fn scan(terms: &[u64; NUMBERS], last: usize, packed: u64) -> Option<TermNumber>
    requires { Small last }
    ensures { (n : ℕ) → Seeking terms.now n packed last → Sought terms.now n packed result }
{
    let mut t = 1;
    while t + 3 <= last && !among_four(terms, t, packed) {
        t += 4;
    }
    scan_from(terms, t, last, packed)
}

// A chained number with the given entry, or that there is none; where several have it, it is left
// open which. The entries are packed terms, or signatures of terms.
pub fn seek(terms: &[u64; NUMBERS], chains: &[u16; LINKS], packed: u64) -> Option<TermNumber>
    requires { (n : ℕ) × Chains terms.now chains.now n × (n ≤ max_terms) }
    ensures { (n : ℕ) → Chains terms.now chains.now n → Sought terms.now n packed result }
{
    let mut t = usize::from(chains[term_hash(packed)]);
    for _ in 0..HOPS {
        if t == 0 {
            return None;
        }
        if terms[t] == packed {
            return Some(TermNumber(t));
        }
        t = usize::from(chains[HASHES + t]);
    }
    scan(terms, t, packed)
}

// The number of a packed term, if it stands in the table.
pub fn search(terms: &[u64; NUMBERS], chains: &[u16; LINKS], packed: u64) -> Option<TermNumber>
    requires { (table : Table) × Searchable table terms.now chains.now }
    ensures { (table : Table) → Searchable table terms.now chains.now
        → (e : specification.Term) → Packs e packed → result ≡ found_of (number_of table e) }
{
    seek(terms, chains, packed)
}

// The number of a term, if it stands in the table.
pub fn find(terms: &[u64; NUMBERS], chains: &[u16; LINKS], term: Term) -> Option<TermNumber>
    requires searchable { (table : Table) × Searchable table terms.now chains.now }
    requires packable { Packable (term_in term) }
    ensures { (table : Table) → Searchable table terms.now chains.now
        → FoundAs table (term_in term) result }
{
    search(terms, chains, pack(term))
}

// The packed form of a term. A number that no term has is read as `nul`, here and below.
pub fn packed(terms: &[u64; NUMBERS], term: TermNumber) -> u64
    requires entries { (table : Table) × Entries table terms.now }
    requires small { Small term.0 }
    ensures { (table : Table) → Entries table terms.now → Packs (at table term.0) result }
{
    terms[term.0]
}

pub fn view(terms: &[u64; NUMBERS], term: TermNumber) -> TermView
    requires entries { (table : Table) × Entries table terms.now }
    requires small { Small term.0 }
    ensures { (table : Table) → Entries table terms.now → ViewAt table term.0 result }
{
    packing::term_codes::view(packed(terms, term))
}

pub fn sort_of(terms: &[u64; NUMBERS], term: TermNumber) -> Sort
    requires entries { (table : Table) × Entries table terms.now }
    requires small { Small term.0 }
    ensures { (table : Table) → Entries table terms.now → result ≡ sort_of (at table term.0) }
{
    packing::term_codes::sort(packed(terms, term))
}

// Is the term of the given sort?
pub fn has_sort(terms: &[u64; NUMBERS], sort: Sort, term: TermNumber) -> bool
    requires entries { (table : Table) × Entries table terms.now }
    requires small { Small term.0 }
    ensures { (table : Table) → Entries table terms.now
        → result ≡ same_sort sort (sort_of (at table term.0)) }
{
    packing::term_codes::has_sort(packed(terms, term), sort)
}

// Puts the packed term at its number, and at the head of its chain.
pub fn add(terms: &mut [u64; NUMBERS], chains: &mut [u16; LINKS], term: TermNumber, packed: u64)
    requires { term.0 ≤ max_terms }
    ensures terms_after { terms.new ≡ set terms.old term.0 packed }
    ensures chains_after { chains.new
        ≡ set (set chains.old (hashes + term.0) (get_or chains.old (hash_of packed) 0))
        (hash_of packed) term.0 }
{
    let h = term_hash(packed);
    terms[term.0] = packed;
    chains[HASHES + term.0] = chains[h];
    chains[h] = term.0 as u16;
}
