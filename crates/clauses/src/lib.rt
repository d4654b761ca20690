// The clauses of a file, in one array that the caller lends: the packed literals of the C lines in
// their order; behind them, for each clause, how many C lines there are up to its last.
#![tactic(auto)]

ghost use Rattle.std.specs.Prelude.{◌≡◌, true, ◌&&◌, [], ◌∷◌, ◌++◌, ℕ, ◌+◌, ◌<◌, ◌≤◌, leb};
ghost use Rattle.tableau.specs.Terms.{Clauses};
ghost use Rattle.tableau.specs.Reply.{max_clause_lines, takes_disjunct};
ghost use Rattle.packing.specs.Packing.{unpack_literal, code_limit};
ghost use Rattle.clauses.specs.Held.{codes_at, end_at, ClausesHeld, SpanOf};

use tableau::ClauseNumber;

// The most C lines, and the most literals of a clause.
const LINES: usize = 400;

const LITERALS: usize = 8;

// A literal for each C line, and an end for each of the numbers 0 to 400; no line stands before
// clause 1.
pub const WORDS: usize = 801;

// The literals of a clause: so many, from an index on.
#[derive(Clone, Copy)]
pub struct Span {
    pub from: usize,
    pub count: usize,
}

impl Span {
    // Their codes.
    pub fn codes(self, clauses: &[u32; WORDS]) -> &[u32]
        requires { self.from + self.count ≤ max_clause_lines }
        ensures { result.now ≡ codes_at clauses.now self.from self.count }
    {
        &clauses[self.from..self.from + self.count]
    }
}

// How many C lines there are up to the last of clause k.
fn end_of(clauses: &[u32; WORDS], k: usize) -> usize
    requires { k ≤ max_clause_lines }
    ensures { result ≡ end_at clauses.now k }
{
    clauses[LINES + k] as usize
}

// Check 11 of a clause, where the last is known: "a `cla` on no clause".
pub fn is_clause(last: usize, k: ClauseNumber) -> bool
    ensures { result ≡ (leb 1 k.0 && leb k.0 last) }
{
    1 <= k.0 && k.0 <= last
}

// Check 21: whether a literal with this clause number can follow.
#[tactic(auto, using(crate::proofs::Laws::last_few))]
pub fn takes(clauses: &[u32; WORDS], last: usize, k: ClauseNumber) -> bool
    requires { (C : Clauses) × ClausesHeld C clauses.now last }
    ensures { (C : Clauses) → ClausesHeld C clauses.now last → result ≡ takes_disjunct C k.0 }
{
    let lines = end_of(clauses, last);
    lines < LINES
        && (k.0 == last + 1
            || last != 0 && k.0 == last && lines - end_of(clauses, last - 1) < LITERALS)
}

// A literal more, which passed check 21.
#[tactic(auto, using(crate::proofs::Laws::last_few))]
pub fn join(clauses: &mut [u32; WORDS], last: usize, k: ClauseNumber, code: u32)
    requires clauses_held { (C : Clauses) × ClausesHeld C clauses.old last
        × (takes_disjunct C k.0 ≡ true) }
    requires code_lt_code_limit { code < code_limit }
    ensures { (C : Clauses) → ClausesHeld C clauses.old last → takes_disjunct C k.0 ≡ true
        → ClausesHeld (C ++ (record { clause = k.0; is = unpack_literal code } ∷ []))
        clauses.new k.0 }
{
    let lines = end_of(clauses, last);
    clauses[lines] = code;
    clauses[LINES + k.0] = (lines + 1) as u32;
}

// Where the literals of a clause stand.
#[tactic(auto, using(crate::proofs::Laws::last_few))]
pub fn span_of(clauses: &[u32; WORDS], k: ClauseNumber) -> Span
    requires { (C : Clauses) × (last : ℕ) × ClausesHeld C clauses.now last × (1 ≤ k.0)
        × (k.0 ≤ last) }
    ensures { (C : Clauses) (last : ℕ) → ClausesHeld C clauses.now last → k.0 ≤ last
        → SpanOf C clauses.now k.0 result }
{
    let from = end_of(clauses, k.0 - 1);
    Span {
        from,
        count: end_of(clauses, k.0) - from,
    }
}
