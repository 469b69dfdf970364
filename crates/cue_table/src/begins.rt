//! Whether a rest begins where it does in the form of a table.
ghost use Rattle.std.specs.Prelude.{◌↔◌, IfNone, IfSome, IsTrue, ◌≡◌};
ghost use Rattle.cue_table.specs.Inner.Form.{StepsRise};
ghost use Rattle.cue_table.specs.Inner.Loose.{IsBehind, IsLastElement};
ghost use Rattle.cue_table.specs.Inner.View.{branches};
ghost use Rattle.cue_table.specs.Tree.{behind_last};

use crate::child::Child;
use crate::node::Node;
use cue_lattice::Narrow;
use cue_row::Step;

/// Whether a rest begins behind the elements among the branches, the last of which differs from it.
pub(crate) fn begins_right<R: Narrow>(children: &[Child<R>], from: u64, rest: &Node<R>) -> bool
    requires { StepsRise (branches children.now) }
    ensures { IsTrue result ↔ IsBehind from rest.now (branches children.now) }
{
    let Some((last, node)) = last_element(children) else {
        return true;
    };
    let behind = u64::from(last) + 1;
    behind < from || (behind == from && !node.same(rest))
}

/// The last element among branches.
fn last_element<R: Narrow>(children: &[Child<R>]) -> Option<(u32, &Node<R>)>
    requires { StepsRise (branches children.now) }
    ensures some { IfSome result
        (λ last. IsLastElement last.0 last.1.now (branches children.now)) }
    ensures none { IfNone result (behind_last (branches children.now) ≡ 0) }
{
    let (child, _) = children.split_last()?;
    match child.step() {
        Step::Label(_) => None,
        Step::Index(number) => Some((*number, child.node())),
    }
}
