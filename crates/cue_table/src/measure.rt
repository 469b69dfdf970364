//! How deep a table is.
ghost use Rattle.std.specs.Prelude.{◌≡◌, ◌≤◌};
ghost use Rattle.cue_lattice.specs.Limits.{step_limit};
ghost use Rattle.cue_table.specs.Depth.{tree_depth};

use crate::{Branch, Table};
use cue_lattice::Narrow;

impl<R: Narrow> Table<R> {
    /// How many steps the longest path has at which something is known, at most
    /// [`cue_lattice::STEP_LIMIT`]. What is kept as one is walked once, and no memory is taken.
    pub fn depth(&self) -> usize
        ensures depth { result ≡ tree_depth self.now }
        ensures most { result ≤ step_limit }
    {
        depth_of(&self.root())
    }
}

/// How deep a branch is. The recursion is as deep as the branch.
fn depth_of<R: Narrow>(branch: &Branch<R>) -> usize
    requires { tree_depth branch.now ≤ step_limit }
    ensures { result ≡ tree_depth branch.now }
{
    let mut depth = 0;
    for (_, below) in branch.spans() {
        depth = usize::max(depth, depth_of(&below) + 1);
    }
    match branch.rest() {
        None => depth,
        Some(rest) => usize::max(depth, depth_of(&rest) + 1),
    }
}
