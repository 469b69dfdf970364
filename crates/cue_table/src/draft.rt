//! Rows in the order of their places, of which a table is made.
ghost use Rattle.std.specs.Prelude.{◌≡◌, [], Some, None, IfOk, IfSome, IfNone, OnErr};
ghost use Rattle.cue_table.specs.Form.{IsRowKept, IsTable};
ghost use Rattle.cue_table.specs.Inner.Drafts.{IsExtendedBy};
ghost use Rattle.cue_table.specs.Inner.Opened.{IsDraft};
ghost use Rattle.cue_table.specs.RowList.{Appends};
ghost use Rattle.cue_table.specs.Slots.{rows_of};
ghost use Rattle.cue_table.specs.Tree.{Tree, empty};

use crate::node::Node;
use crate::open::{Open, close, count_staying, lead_on, open_along};
use crate::{Place, Table};
use cue_lattice::{Memory, Narrow};
use std::alloc::Global;
use std::marker::Model;
use std::mem;

/// Rows in the order of their places, of which a table is made. Contracts see the list of them, or
/// none once it was refused or memory ran out: such a draft refuses each row, and gives no table.
#[derive(Drop)]
pub struct Draft<R: Narrow> {
    alloc: Global,
    /// The nodes on the way to that of the last row, from the root on.
    above: Vec<Open<R>>,
    /// The node of the last row, below which nothing is.
    last: Node<R>,
    /// Whether a row was refused, or memory ran out. Then no node is open.
    is_refused: bool,
}

impl<R: Narrow> Model for Draft<R> {
    ghost use Rattle.std.specs.Prelude.{List, Option};
    ghost use Rattle.cue_table.specs.Slots.{Place};

    ghost Value = { Option (List (Place × R)) };

    ghost use Rattle.cue_table.specs.Slots.{rows_of};
    ghost use Rattle.cue_table.specs.Inner.Drafts.{unless_refused};
    ghost use Rattle.cue_table.specs.Inner.Opened.{close_trees};

    ghost view = { λ draft. unless_refused draft.is_refused
        (rows_of (close_trees draft.above.items draft.last)) };

    ghost use Rattle.cue_table.specs.Form.{IsRowKept};
    ghost use Rattle.cue_table.specs.Inner.Opened.{IsDraft};

    ghost invariant = { λ draft. IsDraft (IsRowKept R.refuses R.is_value) draft.above.items
        draft.last };
}

impl<R: Narrow> Draft<R> {
    /// No row. This takes no memory.
    pub fn new(alloc: Global) -> Draft<R>
        ensures { result ≡ Some [] }
    {
        Draft {
            alloc,
            above: Vec::new(alloc),
            last: Node::new(alloc),
            is_refused: false,
        }
    }

    /// Puts a row behind all others, or says that no table has rows that begin so: where another
    /// row is at the place or behind it, where the row refuses nothing, and where a rest that ends
    /// here begins otherwise than in a table. Then, and where memory runs out, the draft keeps no
    /// row, refuses each further one, and gives no table. However many rows there are, this visits
    /// the nodes of the last place and of this one alone, and compares such a rest with the element
    /// before it.
    pub fn append(&mut self, place: &Place, row: R) -> Result<bool, Memory>
        ensures appends { IfOk result
            (Appends R.refuses R.is_value self.old place.now row self.new) }
        ensures err { OnErr result (self.new ≡ None) }
    {
        if self.is_refused {
            return Ok(false);
        }
        match go_on(self.alloc, &mut self.above, &mut self.last, place, row) {
            Ok(true) => Ok(true),
            Ok(false) => {
                let_go(self.alloc, &mut self.above, &mut self.last);
                self.is_refused = true;
                Ok(false)
            }
            Err(memory) => {
                let_go(self.alloc, &mut self.above, &mut self.last);
                self.is_refused = true;
                Err(memory)
            }
        }
    }

    /// The table that has just these rows, if there is one: a rest that begins before an element of
    /// its own, or whose last such element is as it is, is that of no table. A draft that was
    /// refused gives none.
    pub fn finish(self) -> Result<Option<Table<R>>, Memory>
        ensures form { IfOk result (λ found. IfSome found (IsTable R.refuses R.is_value)) }
        ensures rows { IfOk result (λ found. IfSome found (λ table. Some (rows_of table) ≡ self)) }
        ensures none { IfOk result (λ found. IfNone found ((table : Tree R)
            → IsTable R.refuses R.is_value table → ¬ (Some (rows_of table) ≡ self))) }
    {
        let Draft {
            alloc,
            mut above,
            mut last,
            is_refused,
        } = self;
        if is_refused {
            return Ok(None);
        }
        if !close(alloc, &mut above, &mut last, 0)? {
            return Ok(None);
        }
        Ok(Some(Table::of_root(alloc, last)))
    }
}

/// Drops all rows.
fn let_go<R: Narrow>(alloc: Global, above: &mut Vec<Open<R>>, last: &mut Node<R>)
    ensures above { above.new.items ≡ [] }
    ensures last { last.new ≡ empty }
{
    above.clear();
    *last = Node::new(alloc);
}

/// Lets the nodes of a draft go on to a row behind all others, or says that no table has rows that
/// begin so.
fn go_on<R: Narrow>(
    alloc: Global,
    above: &mut Vec<Open<R>>,
    last: &mut Node<R>,
    place: &Place,
    row: R,
) -> Result<bool, Memory>
    requires { IsDraft (IsRowKept R.refuses R.is_value) above.old.items last.old }
    ensures { IfOk result (IsExtendedBy (IsRowKept R.refuses R.is_value) above.old.items last.old place.now
        row above.new.items last.new) }
{
    let refuses_nothing = row.is_free();
    if refuses_nothing {
        return Ok(false);
    }
    row.known();
    let Some((count, way)) = count_staying(above, place.slots()) else {
        return Ok(false);
    };
    if way.is_empty() && last.non_empty().is_some() {
        return Ok(false);
    }
    if !close(alloc, above, last, count + 1)? {
        return Ok(false);
    }
    let branch = mem::replace(last, Node::of_row(alloc, row));
    let Some((slot, further)) = way.split_first() else {
        return Ok(true);
    };
    if !lead_on(alloc, above, count, slot, branch)? {
        return Ok(false);
    }
    open_along(alloc, above, further)?;
    Ok(true)
}
