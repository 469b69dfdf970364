//! The nodes on the way to the last row of a draft, each apart from the one below it.
ghost use Rattle.std.specs.Prelude.{◌≡◌, ◌⊎◌, ◌≤◌, ◌+◌, ◌++◌, [], drop, length, map, take};
ghost use Rattle.std.specs.Prelude.{IfOk, IfSome};
ghost use Rattle.std.specs.List.{AllByRecursion};
ghost use Rattle.std.specs.Option.{option_map};
ghost use Rattle.cue_table.specs.Form.{IsRowKept, IsTreeTaken, IsTree};
ghost use Rattle.cue_table.specs.SlotsOfCode.{slot_of};
ghost use Rattle.cue_table.specs.Tree.{empty};
ghost use Rattle.cue_table.specs.Inner.Drafts.{opened_along, staying_count, IsDraftWith, IsClosedInto, LeadsOn};
ghost use Rattle.cue_table.specs.Inner.Opened.{close_trees, hang_branch, IsOpen};

use crate::Slot;
use crate::begins::begins_right;
use crate::child::Child;
use crate::node::{INDEXES, Node, Onward};
use cue_lattice::{Memory, Narrow};
use std::alloc::Global;
use std::cmp::Ordering;
use std::marker::Model;
use std::mem;

/// A node with the slot at which it goes on, where nothing hangs yet. Contracts see both.
#[derive(Drop)]
pub(crate) struct Open<R: Narrow> {
    node: Node<R>,
    slot: Slot,
}

impl<R: Narrow> Model for Open<R> {
    ghost use Rattle.std.specs.Coded.{coded×, codes};
    ghost use Rattle.cue_table.specs.Code.{tree_code};
    ghost use Rattle.cue_table.specs.Slots.{Slot};
    ghost use Rattle.cue_table.specs.Tree.{Tree};

    ghost Value = { Tree R × Slot };

    ghost coded = { coded× (tree_code R.code) (Prim.hlevel codes) };

    ghost use Rattle.cue_table.specs.SlotsOfCode.{slot_of};

    ghost view = { λ held. (held.node, slot_of held.slot) };
}

/// How many nodes stay open for a row at a place, and the slots of the place behind theirs. There
/// is nothing where the place is before that of the last row, or would be in a second rest beside
/// it.
pub(crate) fn count_staying<'a, R: Narrow>(
    above: &[Open<R>],
    slots: &'a [Slot],
) -> Option<(usize, &'a [Slot])>
    ensures count { option_map (λ found. found.0) result
        ≡ staying_count above.now (map slot_of slots.now) }
    ensures beyond { IfSome result
        (λ found. map slot_of found.1.now ≡ drop found.0 (map slot_of slots.now)) }
{
    let mut left = slots;
    for (count, node) in above.iter().enumerate() {
        let (next, beyond) = left.split_first()?;
        match (node.slot.compare(next), &node.slot) {
            (Ordering::Equal, _) => left = beyond,
            (Ordering::Less, Slot::At(_)) => return Some((count, left)),
            _ => return None,
        }
    }
    Some((above.len(), left))
}

/// Closes nodes, the last one first, until so many are left: each is hung into the one above it. It
/// says false, where a rest begins otherwise than in a table.
pub(crate) fn close<R: Narrow>(
    alloc: Global,
    above: &mut Vec<Open<R>>,
    last: &mut Node<R>,
    count: usize,
) -> Result<bool, Memory>
    requires opened { AllByRecursion (IsOpen (IsRowKept R.refuses R.is_value)) above.old.items }
    requires form { IsTree (IsRowKept R.refuses R.is_value) last.old }
    requires taken { (above.old.items ≡ []) ⊎ IsTreeTaken last.old }
    ensures { IfOk result (IsClosedInto (IsRowKept R.refuses R.is_value) above.old.items last.old count
        above.new.items last.new) }
{
    while above.len() > count {
        let Some(parent) = above.pop() else {
            break;
        };
        let Open { node, slot } = parent;
        let branch = mem::replace(last, node);
        if !hang(alloc, last, slot, branch)? {
            return Ok(false);
        }
    }
    Ok(true)
}

/// Has a closed node go on at a slot: the node of this number, into which it is hung then, or itself
/// where no node has it. It says false, where a rest begins otherwise than in a table.
pub(crate) fn lead_on<R: Narrow>(
    alloc: Global,
    above: &mut Vec<Open<R>>,
    number: usize,
    slot: &Slot,
    branch: Node<R>,
) -> Result<bool, Memory>
    requires opened { AllByRecursion (IsOpen (IsRowKept R.refuses R.is_value)) above.old.items }
    requires form { IsTree (IsRowKept R.refuses R.is_value) branch }
    requires taken { (above.old.items ≡ []) ⊎ IsTreeTaken branch }
    requires few { length above.old.items ≤ number + 1 }
    ensures { IfOk result (LeadsOn (IsRowKept R.refuses R.is_value) (take number above.old.items)
        (close_trees (drop number above.old.items) branch) (slot_of slot.now) above.new.items) }
{
    let next = slot.copy(alloc)?;
    if let Some(parent) = above.get_mut(number) {
        let held = mem::replace(&mut parent.slot, next);
        return hang(alloc, &mut parent.node, held, branch);
    }
    above.push(Open {
        node: branch,
        slot: next,
    })?;
    Ok(true)
}

/// Hangs a branch in at a slot behind all others. It says false, where a rest begins otherwise than
/// in a table.
fn hang<R: Narrow>(
    alloc: Global,
    node: &mut Node<R>,
    slot: Slot,
    branch: Node<R>,
) -> Result<bool, Memory>
    requires opened { IsOpen (IsRowKept R.refuses R.is_value) (node.old, slot_of slot) }
    requires form { IsTree (IsRowKept R.refuses R.is_value) branch }
    requires taken { IsTreeTaken branch }
    ensures { IfOk result
        (IsDraftWith (IsRowKept R.refuses R.is_value) (hang_branch node.old (slot_of slot) branch) node.new) }
{
    match slot {
        Slot::At(step) => node.children.push(Child::new(alloc, step, branch)?)?,
        Slot::From(number) => {
            if number > INDEXES || !begins_right(&node.children, number, &branch) {
                return Ok(false);
            }
            node.rest = Some(Box::new(alloc, Onward::rest_only(alloc, number, branch))?);
        }
    }
    Ok(true)
}

/// Opens an empty node at each slot.
#[inline(always)]
pub(crate) fn open_along<R: Narrow>(
    alloc: Global,
    above: &mut Vec<Open<R>>,
    slots: &[Slot],
) -> Result<(), Memory>
    ensures { IfOk result (λ none. above.new.items
        ≡ above.old.items ++ opened_along empty (map slot_of slots.now)) }
{
    for slot in slots {
        let slot = slot.copy(alloc)?;
        above.push(Open {
            node: Node::new(alloc),
            slot,
        })?;
    }
    Ok(())
}
