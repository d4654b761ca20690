// What a step reads off the branch.
ghost use Rattle.std.specs.Prelude.{◌≤◌, length};
ghost use Rattle.tree.specs.State.{AreCodes};
ghost use Rattle.steps.specs.Reading.{ReadAt};

use packing::LiteralView;
use packing::literals::view;
use tableau::{Place, TermNumber};
use tree::Tree;

// The literal at a place. A rule that does not use the place has 0 there, and looks at no literal:
// any serves.
pub fn literal(branch: &[u32], place: Place) -> LiteralView
    requires { AreCodes branch.now × (place.0 ≤ length branch.now) }
    ensures { ReadAt branch.now place.0 result }
{
    if place.0 == 0 {
        return LiteralView::In(TermNumber(0), TermNumber(0));
    }
    view(Tree::literal_at(branch, place))
}
