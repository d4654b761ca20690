// What the rows of the order say of the blocks, and what contradicts both.
ghost use Rattle.std.specs.Prelude.{◌≡◌, map};
ghost use Rattle.std.specs.List.{list_any};
ghost use Rattle.packing.specs.Packing.{unpack_literal};
ghost use Rattle.background.specs.Closure.{JoinedMutual, Antisymmetric, denies};

use class_order::Rows;
use packing::LiteralView;
use packing::literals::view;
use partition::{Partition, together};

// Joins the sides of a le literal whose right side is under its left one too. Says whether they
// were apart.
fn join_mutual(blocks: &mut Partition, rows: &Rows, code: u32) -> bool
    ensures { JoinedMutual rows.now blocks.old blocks.new (unpack_literal code) result }
{
    let LiteralView::Le(a, b) = view(code) else {
        return false;
    };
    rows.terms_under(blocks, b, a) && blocks.join(a, b)
}

// Joins the blocks that are under each other, and says whether any were apart.
pub fn antisymmetry(blocks: &mut Partition, rows: &Rows, branch: &[u32]) -> bool
    ensures { Antisymmetric rows.now blocks.old blocks.new (map unpack_literal branch.now) result }
{
    let mut changed = false;
    for &code in branch {
        changed |= join_mutual(blocks, rows, code);
    }
    changed
}

// Does the literal deny what the blocks and rows say?
fn denies_literal(blocks: &Partition, rows: &Rows, code: u32) -> bool
    ensures { result ≡ denies blocks.now rows.now (unpack_literal code) }
{
    match view(code) {
        LiteralView::Ne(a, b) => together(&blocks.blocks, a, b),
        LiteralView::Nl(a, b) => rows.terms_under(blocks, a, b),
        _ => false,
    }
}

// Does any literal of the branch?
pub fn contradicts(blocks: &Partition, rows: &Rows, branch: &[u32]) -> bool
    ensures { result ≡ list_any (λ code. denies blocks.now rows.now (unpack_literal code))
        branch.now }
{
    branch
        .iter()
        .any(|&code| denies_literal(blocks, rows, code))
}
