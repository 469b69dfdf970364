//! Changes of a list of branches carried out. What stays is moved.
ghost use Rattle.std.specs.Prelude.{◌≡◌, ◌+◌, ◌<◌, ◌≤◌, ◌++◌, ◌∷◌, take, drop, OnErr, OnOk};
ghost use Rattle.std.specs.List.{insert as inserted};
ghost use Rattle.std.specs.Vec.{vec_len, vec_capacity};
ghost use Rattle.std.specs.Vec.Iter.{into_iter_items};
ghost use Rattle.cue_table.specs.Inner.Changes.{ChangesFit, total_added, carry_out_changes, added_count, replaced_count};

use crate::changes::Change;
use crate::child::Child;
use cue_lattice::{Memory, Narrow};
use std::alloc::Global;
use std::mem;
use std::vec::IntoIter;

/// The most new branches that are put in where they stand, by one move of memory for each.
const FEW: usize = 16;

/// Changes a list of branches. After want of memory it is as it was.
pub(crate) fn carry_out<R: Narrow>(
    alloc: Global,
    children: &mut Vec<Child<R>>,
    changes: Vec<Change<R>>,
) -> Result<(), Memory>
    requires { ChangesFit changes.items children.old.items }
    ensures ok { OnOk result (children.new.items ≡ carry_out_changes changes.items children.old.items) }
    ensures err { OnErr result (children.new.items ≡ children.old.items) }
{
    let added = count_added(&changes);
    if added <= FEW {
        children.reserve(added)?;
        put_in(children, changes);
        return Ok(());
    }
    let room = Vec::with_capacity(alloc, children.len() + changes.len())?;
    let old = mem::replace(children, Vec::new(alloc));
    *children = merge(old, changes, room);
    Ok(())
}

/// How many changes are in place of no branch.
fn count_added<R: Narrow>(changes: &[Change<R>]) -> usize
    ensures { result ≡ total_added changes.now }
{
    let mut added = 0;
    for change in changes {
        if !change.replaces {
            added += 1;
        }
    }
    added
}

/// Puts new branches among others, where these stand. There is room for those that are added.
fn put_in<R: Narrow>(children: &mut Vec<Child<R>>, changes: Vec<Change<R>>)
    requires fit { ChangesFit changes.items children.old.items }
    requires room { vec_len children.old + total_added changes.items ≤ vec_capacity children.old }
    ensures { children.new.items ≡ carry_out_changes changes.items children.old.items }
{
    let mut at = 0;
    let mut others = changes.into_iter();
    while let Some(change) = others.next() {
        at += change.kept;
        put_at(children, at, change.replaces, change.child);
        at += 1;
    }
}

/// Puts a branch in at a place of a list, or in place of the one there.
fn put_at<R: Narrow>(children: &mut Vec<Child<R>>, at: usize, replaces: bool, child: Child<R>)
    requires place { at + replaced_count replaces ≤ vec_len children.old }
    requires room { vec_len children.old + added_count replaces ≤ vec_capacity children.old }
    ensures before { take at children.new.items ≡ take at children.old.items }
    ensures from { drop at children.new.items
        ≡ child ∷ drop (replaced_count replaces) (drop at children.old.items) }
    ensures len { vec_len children.new ≡ vec_len children.old + added_count replaces }
    ensures capacity { vec_capacity children.new ≡ vec_capacity children.old }
{
    if replaces {
        children[at] = child;
        return;
    }
    put_in_place(children, at, child);
}

/// Puts a branch in at a place of a list. After want of memory the list is as it was.
pub(crate) fn insert<R: Narrow>(
    children: &mut Vec<Child<R>>,
    at: usize,
    child: Child<R>,
) -> Result<(), Memory>
    requires { at ≤ vec_len children.old }
    ensures ok { OnOk result (children.new.items ≡ inserted children.old.items at child) }
    ensures err { OnErr result (children.new.items ≡ children.old.items) }
{
    children.reserve(1)?;
    put_in_place(children, at, child);
    Ok(())
}

/// Puts an item in at a place of a list that has room for it: behind the others first, and from
/// there by one turn of those behind the place. `Vec::insert` says the same, but its loop does not
/// become one move of memory where it stands in a program of this size.
fn put_in_place<T>(items: &mut Vec<T>, at: usize, item: T)
    requires place { at ≤ vec_len items.old }
    requires room { vec_len items.old < vec_capacity items.old }
    ensures items { items.new.items ≡ inserted items.old.items at item }
    ensures len { vec_len items.new ≡ vec_len items.old + 1 }
    ensures capacity { vec_capacity items.new ≡ vec_capacity items.old }
{
    items.push_reserved(item);
    items[at..].rotate_right(1);
}

/// The branches of a list after changes. The room is for all of them.
fn merge<R: Narrow>(
    old: Vec<Child<R>>,
    changes: Vec<Change<R>>,
    mut room: Vec<Child<R>>,
) -> Vec<Child<R>>
    requires fit { ChangesFit changes.items old.items }
    requires empty { vec_len room ≡ 0 }
    requires space { vec_len old + vec_len changes ≤ vec_capacity room }
    ensures { result.items ≡ carry_out_changes changes.items old.items }
{
    let mut rest = old.into_iter();
    let mut others = changes.into_iter();
    while let Some(change) = others.next() {
        keep(&mut room, &mut rest, change.kept);
        pass(&mut rest, change.replaces);
        room.push_reserved(change.child);
    }
    let count = rest.len();
    keep(&mut room, &mut rest, count);
    room
}

/// Moves so many branches to the end of a list that has room for them.
fn keep<R: Narrow>(room: &mut Vec<Child<R>>, rest: &mut IntoIter<Child<R>, Global>, count: usize)
    requires { vec_len room.old + count ≤ vec_capacity room.old }
    ensures kept { room.new.items ≡ room.old.items ++ take count (into_iter_items rest.old) }
    ensures rest { into_iter_items rest.new ≡ drop count (into_iter_items rest.old) }
    ensures len { vec_len room.new ≤ vec_len room.old + count }
    ensures capacity { vec_capacity room.new ≡ vec_capacity room.old }
{
    for moved in 0..count {
        match rest.next() {
            None => return,
            Some(child) => room.push_reserved(child),
        }
    }
}

/// Goes past the next branch, where that is replaced.
fn pass<R: Narrow>(rest: &mut IntoIter<Child<R>, Global>, replaced: bool)
    ensures { into_iter_items rest.new ≡ drop (replaced_count replaced) (into_iter_items rest.old) }
{
    if replaced {
        rest.next();
    }
}
