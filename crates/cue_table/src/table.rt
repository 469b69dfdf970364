ghost use Rattle.std.specs.Prelude.{◌≡◌, ◌↔◌, ◌⊎◌, ◌+◌, ◌<◌, ◌≤◌, ◌^◌, [], None, length, IfOk};
ghost use Rattle.std.specs.Prelude.{IsOk, IsTrue, OnErr, OnOk};
ghost use Rattle.std.specs.Option.{is_some, option_map, option_and_then};
ghost use Rattle.cue_lattice.specs.Limits.{step_limit};
ghost use Rattle.cue_table.specs.Tree.{empty, node, below, rest_below, if_not_empty, branch_at, row_at};
ghost use Rattle.cue_table.specs.Tree.{row_of};
ghost use Rattle.cue_table.specs.Depth.{tree_depth};
ghost use Rattle.cue_table.specs.Form.{IsTable};
ghost use Rattle.cue_table.specs.Meet.{IsAdded, IsMet, IsRestAdded};

use crate::Branch;
use crate::chain::{build_along, rest_alone};
use crate::meet::{meet_into, narrow_row};
use crate::node::Node;
use cue_lattice::{Memory, Narrow};
use cue_row::Path;
use std::alloc::Global;
use std::marker::Model;

/// What is known at each path of a configuration. Contracts see it as a tree of rows, in the one
/// form that it has for what it refuses, and with no path of more than [`cue_lattice::STEP_LIMIT`]
/// steps.
#[derive(Drop)]
pub struct Table<R: Narrow> {
    alloc: Global,
    root: Node<R>,
}

impl<R: Narrow> Model for Table<R> {
    ghost use Rattle.cue_table.specs.Tree.{Tree};
    ghost use Rattle.cue_table.specs.Code.{tree_code};

    ghost Value = { Tree R };

    ghost coded = { tree_code R.code };

    ghost use Rattle.cue_table.specs.Form.{IsTable};

    ghost view = { λ table. table.root };

    ghost use Rattle.std.specs.Prelude.{◌≤◌};
    ghost use Rattle.cue_lattice.specs.Limits.{step_limit};
    ghost use Rattle.cue_table.specs.Depth.{tree_depth};

    ghost invariant = { λ table. IsTable R.refuses R.is_value table.root
        × (tree_depth table.root ≤ step_limit) };
}

impl<R: Narrow> Table<R> {
    /// The table without rows, which refuses nothing. This takes no memory.
    pub fn new(alloc: Global) -> Table<R>
        ensures { result ≡ empty }
    {
        Table {
            alloc,
            root: Node::new(alloc),
        }
    }

    /// The row at a path; nothing means that the path is free.
    pub fn row(&self, path: &Path) -> Option<&R>
        ensures row { option_map (λ row. row.now) result ≡ row_at self.now path.now }
        ensures form { IsTable R.refuses R.is_value self.now }
    {
        self.root.walk(path.steps())?.row()
    }

    /// The branch at a path, where a row stands there or below.
    pub fn branch(&self, path: &Path) -> Option<Branch<R>>
        ensures branch { result ≡ option_and_then if_not_empty (branch_at self.now path.now) }
        ensures form { IsTable R.refuses R.is_value self.now }
    {
        let node = self.root.walk(path.steps())?.non_empty()?;
        Some(Branch::new(node))
    }

    /// The whole table as a branch, also where it has no row.
    pub fn root(&self) -> Branch<R>
        ensures branch { result ≡ self.now }
        ensures form { IsTable R.refuses R.is_value self.now }
        ensures depth { tree_depth self.now ≤ step_limit }
    {
        Branch::new(&self.root)
    }

    /// Whether both tables know the same at each path.
    pub fn same(&self, other: &Table<R>) -> bool
        ensures { IsTrue result ↔ (self.now ≡ other.now) }
    {
        self.root.same(&other.root)
    }

    pub fn copy(&self, alloc: Global) -> Result<Table<R>, Memory>
        ensures { IfOk result (λ table. table ≡ self.now) }
    {
        Ok(Table {
            alloc,
            root: self.root.copy(alloc)?,
        })
    }

    /// What both tables know: refuses exactly what one of both does.
    pub fn meet(&self, alloc: Global, other: &Table<R>) -> Result<Table<R>, Memory>
        ensures form { IfOk result (IsTable R.refuses R.is_value) }
        ensures refused { IfOk result (IsMet R.refuses self.now other.now) }
    {
        let mut met = self.copy(alloc)?;
        met.meet_with(other.copy(alloc)?)?;
        Ok(met)
    }

    /// Unifies the other table into this one, which then refuses exactly what one of both did.
    /// After want of memory it is as it was. Where one of both has no rows, the other one is kept
    /// or moved, which takes no memory.
    pub fn meet_with(&mut self, other: Table<R>) -> Result<(), Memory>
        ensures form { IsTable R.refuses R.is_value self.new }
        ensures ok { OnOk result (IsMet R.refuses self.old other self.new) }
        ensures err { OnErr result (self.new ≡ self.old) }
        ensures free { (self.old ≡ empty) ⊎ (other ≡ empty) → IsOk result }
    {
        let alloc = self.alloc;
        let Table { alloc: _, root } = other;
        if root.non_empty().is_none() {
            return Ok(());
        }
        if self.root.non_empty().is_none() {
            self.root = root;
            return Ok(());
        }
        meet_into(alloc, &mut self.root, root)?;
        Ok(())
    }

    /// Unifies a row into the one at a path. After want of memory the table is as it was.
    pub fn add(&mut self, path: &Path, row: &R) -> Result<(), Memory>
        ensures form { IsTable R.refuses R.is_value self.new }
        ensures ok { OnOk result (IsAdded R.refuses self.old path.now row.now self.new) }
        ensures err { OnErr result (self.new ≡ self.old) }
    {
        let alloc = self.alloc;
        if row.is_free() {
            return Ok(());
        }
        row.known();
        let lone = Node::of_row(alloc, row.copy(alloc)?);
        let root = build_along(alloc, path.steps(), lone)?;
        self.meet_with(Table { alloc, root })
    }

    /// Unifies a row into the one at the root, and takes it over. After want of memory the table is
    /// as it was.
    #[inline(always)]
    pub fn meet_row(&mut self, row: R) -> Result<(), Memory>
        ensures form { IsTable R.refuses R.is_value self.new }
        ensures ok { OnOk result (IsAdded R.refuses self.old [] row self.new) }
        ensures err { OnErr result (self.new ≡ self.old) }
    {
        let root = &mut self.root;
        let refuses_nothing = row.is_free();
        if refuses_nothing {
            return Ok(());
        }
        row.known();
        narrow_row(self.alloc, &mut root.row, Some(row))
    }

    /// Unifies a table into each element, from an index on, of the list at a path. After want of
    /// memory the table is as it was.
    pub fn add_rest(&mut self, path: &Path, from: u32, rest: &Table<R>) -> Result<(), Memory>
        requires depth { length path.now + 1 + tree_depth rest.now ≤ step_limit }
        ensures form { IsTable R.refuses R.is_value self.new }
        ensures ok { OnOk result
            (IsRestAdded R.refuses self.old path.now from rest.now self.new) }
        ensures err { OnErr result (self.new ≡ self.old) }
    {
        let alloc = self.alloc;
        if rest.root.non_empty().is_none() {
            return Ok(());
        }
        let list = rest_alone(alloc, u64::from(from), rest.root.copy(alloc)?)?;
        let root = build_along(alloc, path.steps(), list)?;
        self.meet_with(Table { alloc, root })
    }

    /// Unifies a table into each element of the root from an index on, which may be the one behind
    /// the last of 32 bits, and takes it over. After want of memory the table is as it was.
    pub fn meet_rest(&mut self, from: u64, rest: Table<R>) -> Result<(), Memory>
        requires few { from ≤ 2 ^ 32 }
        requires depth { tree_depth rest < step_limit }
        ensures form { IsTable R.refuses R.is_value self.new }
        ensures ok { OnOk result (IsRestAdded R.refuses self.old [] from rest self.new) }
        ensures err { OnErr result (self.new ≡ self.old) }
    {
        let alloc = self.alloc;
        let Table {
            alloc: _,
            root: node,
        } = rest;
        if node.non_empty().is_none() {
            return Ok(());
        }
        let root = rest_alone(alloc, from, node)?;
        self.meet_with(Table { alloc, root })
    }

    /// Takes the row off the root, where one stands there.
    pub fn take_row(&mut self) -> Option<R>
        ensures row { result ≡ row_of self.old }
        ensures others { self.new ≡ node None (below self.old) (rest_below self.old) }
    {
        self.root.row.take()
    }
}

impl<R: Narrow> Table<R> {
    /// The table of a root in form.
    pub(crate) fn of_root(alloc: Global, root: Node<R>) -> Table<R>
        requires form { IsTable R.refuses R.is_value root }
        requires depth { tree_depth root ≤ step_limit }
        ensures { result ≡ root }
    {
        Table { alloc, root }
    }

    /// Whether a row stands at the root or below.
    pub(crate) fn has_rows(&self) -> bool
        ensures { result ≡ is_some (if_not_empty self.now) }
    {
        self.root.non_empty().is_some()
    }

    /// The root, with all that is below.
    pub(crate) fn into_root(self) -> Node<R>
        ensures same { result ≡ self }
        ensures form { IsTable R.refuses R.is_value result }
    {
        let Table { alloc: _, root } = self;
        root
    }
}
