// Terms with one word and equal arguments are equal. The signature of a term is its packed form
// with the block of each argument in the argument's place; the chains of the term table lead from a
// signature to a term that has it.
#![tactic(auto)]

ghost use Rattle.std.specs.Prelude.{◌≡◌, ℕ, ◌≤◌};
ghost use Rattle.tableau.specs.Basics.{map_four};
ghost use Rattle.tableau.specs.Terms.{max_terms};
ghost use Rattle.syntax.specs.Syntax.{arguments_in};
ghost use Rattle.packing.specs.Packing.{Small, AllSmall};
ghost use Rattle.table.specs.Held.{Chains};
ghost use Rattle.partition.specs.Blocks.{block_of};
ghost use Rattle.congruence.specs.Signatures.{signature_of, sign_of, JoinedSigned, JoinedAlike};
ghost use Rattle.congruence.specs.Signatures.{JoinedSome};

use congruence_search::plan;
use packing::term_codes::{fields, takes_terms, with_fields};
use pairs::{Pairs, first, second};
use partition::Partition;
use syntax::Arguments;
use table::{LINKS, NUMBERS};
use tableau::TermNumber;

fn blocks_of(blocks: &Partition, k: Arguments) -> Arguments
    requires { AllSmall (arguments_in k) }
    ensures small { AllSmall (arguments_in result) }
    ensures blocks { arguments_in result ≡ map_four (block_of blocks.now) (arguments_in k) }
{
    Arguments {
        a: blocks.block(k.a),
        b: blocks.block(k.b),
        c: blocks.block(k.c),
        d: blocks.block(k.d),
    }
}

fn signature(blocks: &Partition, packed: u64) -> u64
    ensures { result ≡ signature_of blocks.now packed }
{
    with_fields(packed, blocks_of(blocks, fields(packed)))
}

// What stands for a term in the chains: its signature, or itself where its word takes no terms.
fn sign(blocks: &Partition, packed: u64) -> u64
    ensures { result ≡ sign_of blocks.now packed }
{
    if takes_terms(packed) {
        signature(blocks, packed)
    } else {
        packed
    }
}

// Joins the block of the term t, whose packed form and signature are given, with that of a term
// before it that has its signature. Says whether they were apart.
fn join_signed(
    blocks: &mut Partition,
    signatures: &[u64; NUMBERS],
    chains: &[u16; LINKS],
    packed: u64,
    signature: u64,
    t: TermNumber,
) -> bool
    requires small { Small t.0 }
    requires by_index { (m : ℕ) × Chains signatures.now chains.now m × (m ≤ max_terms) }
    ensures { (m : ℕ) → Chains signatures.now chains.now m → m ≤ max_terms
        → JoinedSigned blocks.old blocks.new signatures.now m packed signature t.0 result }
{
    if !takes_terms(packed) {
        return false;
    }
    let Some(w) = table::seek(signatures, chains, signature) else {
        return false;
    };
    blocks.join(t, w)
}

// Joins the blocks of terms with one signature, and says whether any were apart. A joining counts
// at once for the terms behind it.
fn join_alike(blocks: &mut Partition, terms: &[u64; NUMBERS], n: usize) -> bool
    requires { n ≤ max_terms }
    ensures { JoinedAlike blocks.old blocks.new terms.now n result }
{
    let mut signatures = [0; NUMBERS];
    let mut chains = [0; LINKS];
    let mut changed = false;
    for t in 1..=n {
        let packed = terms[t];
        let signature = sign(blocks, packed);
        let t = TermNumber(t);
        changed |= join_signed(blocks, &signatures, &chains, packed, signature, t);
        table::add(&mut signatures, &mut chains, t, signature);
    }
    changed
}

// Joins the terms of a pair t, w where they have one signature. Says whether they were apart.
fn join_pair(blocks: &mut Partition, terms: &[u64; NUMBERS], pair: u32) -> bool
    ensures { JoinedSome terms.now blocks.old blocks.new result }
{
    let t = first(pair);
    let w = second(pair);
    takes_terms(terms[t])
        && signature(blocks, terms[t]) == signature(blocks, terms[w])
        && blocks.join(TermNumber(t), TermNumber(w))
}

fn join_pairs(blocks: &mut Partition, terms: &[u64; NUMBERS], pairs: &[u32]) -> bool
    ensures { JoinedSome terms.now blocks.old blocks.new result }
{
    let mut changed = false;
    for &pair in pairs {
        changed |= join_pair(blocks, terms, pair);
    }
    changed
}

// Joins the terms that a search finds, and says whether any were apart. As a rule that is all of
// them, in whatever order the terms stand, and `join_alike` then finds none; the result does not
// depend on it.
fn hasten(blocks: &mut Partition, terms: &[u64; NUMBERS], n: usize) -> bool
    requires { n ≤ max_terms }
    ensures { JoinedSome terms.now blocks.old blocks.new result }
{
    let mut pairs = Pairs::none();
    plan(&blocks.blocks, terms, n, &mut pairs);
    join_pairs(blocks, terms, pairs.noted())
}

// Joins terms that have one signature, and says whether any were apart. Where none were, terms with
// one word and arguments of the same blocks are in one block. Where some were, it is left open
// which are joined: with `again`, a search goes on from there.
pub fn join_congruent(blocks: &mut Partition, terms: &[u64; NUMBERS], n: usize, again: bool) -> bool
    requires { n ≤ max_terms }
    ensures { JoinedAlike blocks.old blocks.new terms.now n result }
{
    let changed = join_alike(blocks, terms, n);
    if changed && again {
        hasten(blocks, terms, n);
    }
    changed
}
