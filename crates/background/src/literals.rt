// The equalities of a branch.
ghost use Rattle.std.specs.Prelude.{map};
ghost use Rattle.packing.specs.Packing.{unpack_literal};
ghost use Rattle.background.specs.Closure.{JoinedLiteral, JoinedLiterals};

use packing::LiteralView;
use packing::literals::view;
use partition::Partition;

// Joins the sides of an eq literal; another literal says nothing of equality. Says whether they
// were apart.
fn join_literal(blocks: &mut Partition, code: u32) -> bool
    ensures { JoinedLiteral blocks.old blocks.new (unpack_literal code) result }
{
    let LiteralView::Eq(a, b) = view(code) else {
        return false;
    };
    blocks.join(a, b)
}

pub fn join_literals(blocks: &mut Partition, branch: &[u32]) -> bool
    ensures { JoinedLiterals blocks.old blocks.new (map unpack_literal branch.now) result }
{
    let mut changed = false;
    for &code in branch {
        changed |= join_literal(blocks, code);
    }
    changed
}
