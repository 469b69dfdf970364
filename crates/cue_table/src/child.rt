//! Branches at their steps, which the copies of a table share.
ghost use Rattle.std.specs.Prelude.{◌≡◌, IfOk, IfSome, OnErr, OnOk};
ghost use Rattle.std.specs.Borrow.{sem};
ghost use Rattle.cue_table.specs.Inner.Lending.{lends_held};

use crate::node::Node;
use cue_lattice::{Memory, Narrow};
use cue_row::Step;
use std::alloc::Global;
use std::marker::Model;
use std::rc::Rc;

/// A branch at its step. It is shared by its copies, and a list of branches is moved by words.
/// Contracts see its step and its node.
#[derive(Drop)]
#[cycle(node)]
pub(crate) struct Child<R: Narrow> {
    held: Rc<HeldNode<R>>,
}

/// What a branch holds.
#[derive(Drop)]
#[cycle(node)]
pub(crate) struct HeldNode<R: Narrow> {
    step: Step,
    pub(crate) node: Node<R>,
}

impl<R: Narrow> Model for Child<R> {
    ghost use Rattle.cue_table.specs.Inner.Child as inner;

    ghost Value = { inner.Child R };

    ghost coded = { inner.child_code R.code };

    ghost use Rattle.cue_table.specs.Inner.View.{child_of};

    ghost view = { child_of };

    ghost size = { inner.child_size };

    ghost use Rattle.cue_table.specs.Inner.Falls.{held_falls};

    ghost size_decreases = { λ a h. held_falls R.Narrow a };
}

impl<R: Narrow> Child<R> {
    /// A branch at this step.
    pub(crate) fn new(alloc: Global, step: Step, node: Node<R>) -> Result<Child<R>, Memory>
        ensures step { IfOk result (λ child. child.step ≡ step) }
        ensures node { IfOk result (λ child. child.node ≡ node) }
    {
        Ok(Child {
            held: Rc::new(alloc, HeldNode { step, node })?,
        })
    }

    /// The step at which it stands.
    pub(crate) fn step(&self) -> &Step
        ensures { result.now ≡ self.now.step }
    {
        &self.held.step
    }

    /// What stands there and below.
    pub(crate) fn node(&self) -> &Node<R>
        ensures { result.now ≡ self.now.node }
    {
        &self.held.node
    }

    /// The same branch once more. Both share what they hold.
    pub(crate) fn copy(&self) -> Result<Child<R>, Memory>
        ensures { IfOk result (λ copied. copied ≡ self.now) }
    {
        Ok(Child {
            held: Rc::clone(&self.held)?,
        })
    }

    /// What it holds, to write to, where it has one owner.
    pub(crate) fn own(&mut self) -> Option<&mut HeldNode<R>>
        ensures* writes_back { sem 𝓛 (lends_held R.row R.Question.row R.Narrow self.entry result) }
        ensures value { IfSome result (λ held. (held.now.step ≡ self.old.step)
            × (held.now.node ≡ self.old.node)) }
    {
        Rc::get_mut(&mut self.held)
    }

    /// What stands there and below, copied where the branch has another owner.
    pub(crate) fn into_node(self, alloc: Global) -> Result<Node<R>, Memory>
        ensures { IfOk result (λ node. node ≡ self.node) }
    {
        let Child { held } = self;
        match Rc::try_unwrap(held) {
            Ok(held) => {
                let HeldNode { step: _, node } = held;
                Ok(node)
            }
            Err(shared) => shared.node.copy(alloc),
        }
    }

    /// Puts another node at its step. After want of memory the branch is as it was.
    pub(crate) fn renew(&mut self, alloc: Global, node: Node<R>) -> Result<(), Memory>
        ensures step { self.new.step ≡ self.old.step }
        ensures node { OnOk result (self.new.node ≡ node) }
        ensures err { OnErr result (self.new ≡ self.old) }
    {
        let step = self.step().copy(alloc)?;
        *self = Child::new(alloc, step, node)?;
        Ok(())
    }
}
