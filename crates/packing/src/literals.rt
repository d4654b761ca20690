// Literals as numbers.
ghost use Rattle.std.specs.Prelude.{◌≡◌, ◌<◌};
ghost use Rattle.syntax.specs.Syntax.{literal_in};
ghost use Rattle.packing.specs.Packing.{pack_literal, unpack_literal, code_limit, Small};
ghost use Rattle.packing.specs.Packing.{PackableLiteral, literal_view_of};
ghost use Rattle.packing.specs.Packing.{relation_of, left_of, right_of, left_in, right_in};

use crate::LiteralView;
use syntax::Literal;
use tableau::{Relation, TermNumber};

// The right side is below SIDE, the left one above it, and the relation above RELATION.
const SIDE: u32 = 1024;

const RELATION: u32 = 1048576;

pub fn pack(literal: Literal) -> u32
    requires { PackableLiteral (literal_in literal) }
    ensures { (result ≡ pack_literal (literal_in literal)) × (result < code_limit) }
{
    (literal.relation as u32 * SIDE + literal.left.0 as u32) * SIDE + literal.right.0 as u32
}

#[tactic(auto, using(crate::proofs::PackingLaws::literal_coded_last), unfolding(crate::specs::Packing::unpack_literal, crate::specs::Packing::relation_at, crate::specs::Packing::literal_view_as))]
pub fn view(packed: u32) -> LiteralView
    ensures { result ≡ literal_view_of (unpack_literal packed) }
{
    let m = packed_left(packed);
    let n = packed_right(packed);
    match packed / RELATION {
        0 => LiteralView::In(m, n),
        1 => LiteralView::Ni(m, n),
        2 => LiteralView::Eq(m, n),
        3 => LiteralView::Ne(m, n),
        4 => LiteralView::Le(m, n),
        _ => LiteralView::Nl(m, n),
    }
}

// The sides of a packed literal.
#[tactic(auto, unfolding(crate::specs::Packing::unpack_literal))]
pub fn packed_left(packed: u32) -> TermNumber
    ensures { (result.0 ≡ left_in (unpack_literal packed)) × Small result.0 }
{
    TermNumber((packed / SIDE % SIDE) as usize)
}

#[tactic(auto, unfolding(crate::specs::Packing::unpack_literal))]
pub fn packed_right(packed: u32) -> TermNumber
    ensures { (result.0 ≡ right_in (unpack_literal packed)) × Small result.0 }
{
    TermNumber((packed % SIDE) as usize)
}

// The parts of any literal.
impl LiteralView {
    pub fn relation(self) -> Relation
        ensures { result ≡ relation_of self }
    {
        match self {
            Self::In(..) => Relation::In,
            Self::Ni(..) => Relation::Ni,
            Self::Eq(..) => Relation::Eq,
            Self::Ne(..) => Relation::Ne,
            Self::Le(..) => Relation::Le,
            Self::Nl(..) => Relation::Nl,
        }
    }

    pub fn left(self) -> TermNumber
        ensures { result.0 ≡ left_of self }
    {
        match self {
            Self::In(m, _)
            | Self::Ni(m, _)
            | Self::Eq(m, _)
            | Self::Ne(m, _)
            | Self::Le(m, _)
            | Self::Nl(m, _) => m,
        }
    }

    pub fn right(self) -> TermNumber
        ensures { result.0 ≡ right_of self }
    {
        match self {
            Self::In(_, n)
            | Self::Ni(_, n)
            | Self::Eq(_, n)
            | Self::Ne(_, n)
            | Self::Le(_, n)
            | Self::Nl(_, n) => n,
        }
    }
}
