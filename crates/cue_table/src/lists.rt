//! Places met where one of both is a list with a rest.
ghost use Rattle.std.specs.Prelude.{◌≡◌, ◌↔◌, ◌<◌, ◌≤◌, ◌^◌, ℕ, IfOk, IsTrue, None};
ghost use Rattle.std.specs.Option.{option_map};
ghost use Rattle.cue_lattice.specs.Path.{index};
ghost use Rattle.cue_table.specs.Form.{IsRowKept, IsTable};
ghost use Rattle.cue_table.specs.Inner.Form.{StepsRise};
ghost use Rattle.cue_table.specs.Meet.{IsMet};
ghost use Rattle.cue_table.specs.Inner.Rests.{AreElementsMet, AreFields, AreMetRests, IsBranch};
ghost use Rattle.cue_table.specs.Inner.Alike.{AreAlike};
ghost use Rattle.cue_table.specs.Inner.Sides.{AreFound, IsAt, found_by};
ghost use Rattle.cue_table.specs.Inner.View.{branches};
ghost use Rattle.cue_table.specs.Tree.{no_rest, rest_below, rest_at, step_into};

use crate::child::Child;
use crate::meet::{meet_below, meet_nodes, meet_rows, node_or, row_or};
use crate::node::{ElementRun, Node, Onward, copy_children, copy_row};
use crate::rest::{fixed_from, rest, settle_rest};
use crate::runs::FoundElement;
use cue_lattice::{Memory, Narrow};
use cue_row::Step;
use std::alloc::Global;

/// Two places met, of which one has a rest. It shares what stays below.
#[cycle(meet)]
pub(crate) fn meet_lists<R: Narrow>(
    alloc: Global,
    left: &Node<R>,
    right: &Node<R>,
) -> Result<Node<R>, Memory>
    requires left { IsTable R.refuses R.is_value left.now }
    requires right { IsTable R.refuses R.is_value right.now }
    requires rest { ¬ ((rest_below left.now ≡ no_rest) × (rest_below right.now ≡ no_rest)) }
    ensures form { IfOk result (IsTable R.refuses R.is_value) }
    ensures refused { IfOk result (IsMet R.refuses left.now right.now) }
{
    let onward = meet_elements(alloc, left, right)?;
    let row = meet_rows(alloc, &left.row, copy_row(alloc, &right.row)?)?;
    let row = row_or(alloc, row, &left.row)?;
    let (own, _) = left.children.split_at(field_count(&left.children));
    let mut children = copy_children(alloc, own)?;
    let (others, _) = right.children.split_at(field_count(&right.children));
    let others = copy_children(alloc, others)?;
    meet_below(alloc, &mut children, others)?;
    Ok(Node {
        row,
        children,
        rest: Some(Box::new(alloc, onward)?),
    })
}

/// The elements of two places met, of which one has a rest: each stretch that is alike in both
/// once, and the rests.
#[cycle(meet)]
fn meet_elements<R: Narrow>(
    alloc: Global,
    left: &Node<R>,
    right: &Node<R>,
) -> Result<Onward<R>, Memory>
    requires left { IsTable R.refuses R.is_value left.now }
    requires right { IsTable R.refuses R.is_value right.now }
    requires rest { ¬ ((rest_below left.now ≡ no_rest) × (rest_below right.now ≡ no_rest)) }
    ensures { IfOk result
        (AreElementsMet R.refuses (IsRowKept R.refuses R.is_value) left.now right.now) }
{
    let fixed = u64::max(fixed_from(left), fixed_from(right));
    let further = meet_found(alloc, rest(left), rest(right))?;
    let mut on_left = ListSide::new(left);
    let mut on_right = ListSide::new(right);
    let mut runs = Vec::new(alloc);
    let mut at = 0;
    while at < fixed {
        let first = index_of(at);
        let element = meet_element(alloc, &on_left, &on_right, first, &further)?;
        let end = alike_end(&mut on_left, &mut on_right, first, fixed);
        let last = index_of(end - 1);
        if let Some(node) = element {
            let more = last - first;
            runs.push(ElementRun { first, more, node })?;
        }
        at = end;
    }
    match further {
        Some(node) => Ok(settle_rest(runs, fixed, node)),
        // One of both has a rest.
        None => unreachable!(),
    }
}

/// A place on the way along its elements, with the element that was found last.
#[derive(Drop)]
struct ListSide<'a, R: Narrow> {
    place: &'a Node<R>,
    found: FoundElement<'a, R>,
}

impl<'a, R: Narrow> ListSide<'a, R> {
    /// A place at its first element.
    fn new(place: &'a Node<R>) -> ListSide<'a, R>
        requires { IsTable R.refuses R.is_value place.now }
        ensures { IsAt place.now 0 result }
    {
        let found = place.look_at_index(0);
        ListSide { place, found }
    }

    /// Goes on to an index, and tells whether its element is kept as one with that before. It is
    /// looked up where it is not.
    fn go_on(&mut self, number: u32) -> bool
        requires form { IsTable R.refuses R.is_value self.old.place.now }
        requires found { AreFound self.old.place.now number self.old }
        ensures at { IsAt self.old.place.now number self.new }
        ensures same { IsTrue result → (found_by self.old ≡ found_by self.new) }
    {
        if u64::from(number) < self.found.end {
            return true;
        }
        let place = self.place;
        self.found = place.look_at_index(number);
        false
    }

    /// Whether the element at an index is what all further ones are. It is compared where it is
    /// none of these.
    fn is_as_rest(&self, number: u32) -> bool
        requires form { IsTable R.refuses R.is_value self.now.place.now }
        requires at { IsAt self.now.place.now number self.now }
        ensures { IsTrue result
            → (step_into self.now.place.now (index number)
            ≡ rest_at (rest_below self.now.place.now)) }
    {
        u64::from(number) >= fixed_from(self.place) || same_found(self.found.node, rest(self.place))
    }
}

/// An index behind this one up to which the elements of both places are alike. Both go on to it.
fn alike_end<R: Narrow>(
    left: &mut ListSide<R>,
    right: &mut ListSide<R>,
    first: u32,
    fixed: u64,
) -> u64
    requires left_form { IsTable R.refuses R.is_value left.old.place.now }
    requires right_form { IsTable R.refuses R.is_value right.old.place.now }
    requires left { IsAt left.old.place.now first left.old }
    requires right { IsAt right.old.place.now first right.old }
    requires first { first < fixed }
    requires few { fixed ≤ 2 ^ 32 }
    ensures low { result ≤ fixed }
    ensures left { AreAlike first result (λ i. step_into left.old.place.now (index i)) }
    ensures right { AreAlike first result (λ i. step_into right.old.place.now (index i)) }
    ensures left_on { result < fixed → IsAt left.old.place.now result left.new }
    ensures right_on { result < fixed → IsAt right.old.place.now result right.new }
{
    let mut end = u64::from(first) + 1;
    while both_go_on(left, right, end, fixed) {
        end = end_of_both(left, right, fixed);
    }
    end
}

/// Up to which index the elements that were found are kept as one in both places.
fn end_of_both<R: Narrow>(left: &ListSide<R>, right: &ListSide<R>, fixed: u64) -> u64
    ensures left { result ≤ left.now.found.end }
    ensures right { result ≤ right.now.found.end }
    ensures low { result ≤ fixed }
    ensures behind { (n : ℕ) → n < left.now.found.end → n < right.now.found.end → n < fixed
        → n < result }
{
    left.found.end.min(right.found.end).min(fixed)
}

/// Whether the next elements of both places are as those before. Both go on to these, where they
/// stand before an index. Elements are compared where they are not kept as one.
fn both_go_on<R: Narrow>(
    left: &mut ListSide<R>,
    right: &mut ListSide<R>,
    next: u64,
    fixed: u64,
) -> bool
    requires left_form { IsTable R.refuses R.is_value left.old.place.now }
    requires right_form { IsTable R.refuses R.is_value right.old.place.now }
    requires left { AreFound left.old.place.now next left.old }
    requires right { AreFound right.old.place.now next right.old }
    requires few { fixed ≤ 2 ^ 32 }
    ensures low { IsTrue result → next < fixed }
    ensures left { next < fixed → IsAt left.old.place.now next left.new }
    ensures right { next < fixed → IsAt right.old.place.now next right.new }
    ensures left_same { IsTrue result → (found_by left.old ≡ found_by left.new) }
    ensures right_same { IsTrue result → (found_by right.old ≡ found_by right.new) }
{
    if next >= fixed {
        return false;
    }
    let left_last = left.found.node;
    let right_last = right.found.node;
    let number = index_of(next);
    let left_stays = left.go_on(number);
    let right_stays = right.go_on(number);
    (left_stays || same_found(left_last, left.found.node))
        && (right_stays || same_found(right_last, right.found.node))
}

/// The elements of two places with an index met. Where both are as the rests, they are shared with
/// what these are together.
#[cycle(meet)]
fn meet_element<R: Narrow>(
    alloc: Global,
    left: &ListSide<R>,
    right: &ListSide<R>,
    first: u32,
    further: &Option<Node<R>>,
) -> Result<Option<Node<R>>, Memory>
    requires left_form { IsTable R.refuses R.is_value left.now.place.now }
    requires right_form { IsTable R.refuses R.is_value right.now.place.now }
    requires left { IsAt left.now.place.now first left.now }
    requires right { IsAt right.now.place.now first right.now }
    requires form { IsBranch (IsRowKept R.refuses R.is_value) further.now }
    requires refused { AreMetRests R.refuses (rest_at (rest_below left.now.place.now))
        (rest_at (rest_below right.now.place.now)) further.now }
    ensures form { IfOk result (IsBranch (IsRowKept R.refuses R.is_value)) }
    ensures refused { IfOk result (AreMetRests R.refuses
        (step_into left.now.place.now (index first))
        (step_into right.now.place.now (index first))) }
{
    if left.is_as_rest(first) && right.is_as_rest(first) {
        return copy_found(alloc, further);
    }
    meet_found(alloc, left.found.node, right.found.node)
}

/// Whether two branches that may be there are the same.
fn same_found<R: Narrow>(one: Option<&Node<R>>, other: Option<&Node<R>>) -> bool
    ensures { IsTrue result ↔ (option_map (λ node. node.now) one.entry
        ≡ option_map (λ node. node.now) other.entry) }
{
    match (one, other) {
        (None, None) => true,
        (Some(one), Some(other)) => one.same(other),
        _ => false,
    }
}

/// A branch that may be there once more.
fn copy_found<R: Narrow>(alloc: Global, found: &Option<Node<R>>) -> Result<Option<Node<R>>, Memory>
    ensures { IfOk result (λ copied. copied ≡ found.now) }
{
    match found {
        None => Ok(None),
        Some(node) => Ok(Some(node.copy(alloc)?)),
    }
}

/// A number as an index.
fn index_of(number: u64) -> u32
    requires { number < 2 ^ 32 }
    ensures same { result ≡ number }
    ensures word { result < 2 ^ 32 }
{
    number as u32
}

/// What two branches are together that may be there: one, where one of both is there.
#[cycle(meet)]
fn meet_found<R: Narrow>(
    alloc: Global,
    left: Option<&Node<R>>,
    right: Option<&Node<R>>,
) -> Result<Option<Node<R>>, Memory>
    requires left { IsBranch (IsRowKept R.refuses R.is_value) (option_map (λ node. node.now) left) }
    requires right { IsBranch (IsRowKept R.refuses R.is_value) (option_map (λ node. node.now) right) }
    ensures form { IfOk result (IsBranch (IsRowKept R.refuses R.is_value)) }
    ensures refused { IfOk result (AreMetRests R.refuses
        (option_map (λ node. node.now) left.entry) (option_map (λ node. node.now) right.entry)) }
    ensures there { IfOk result (λ met. met ≡ None
        → (option_map (λ node. node.now) left.entry ≡ None)
        × (option_map (λ node. node.now) right.entry ≡ None)) }
{
    match (left, right) {
        (None, None) => Ok(None),
        (Some(node), None) | (None, Some(node)) => Ok(Some(node.copy(alloc)?)),
        (Some(node), Some(other)) => Ok(Some(meet_whole(alloc, node, other)?)),
    }
}

/// Two places met, shared with the left one where it stays as it is.
#[cycle(meet)]
fn meet_whole<R: Narrow>(alloc: Global, left: &Node<R>, right: &Node<R>) -> Result<Node<R>, Memory>
    requires left { IsTable R.refuses R.is_value left.now }
    requires right { IsTable R.refuses R.is_value right.now }
    ensures form { IfOk result (IsTable R.refuses R.is_value) }
    ensures refused { IfOk result (IsMet R.refuses left.now right.now) }
{
    if left.rest.is_some() || right.rest.is_some() {
        return meet_lists(alloc, left, right);
    }
    let met = meet_nodes(alloc, left, right.copy(alloc)?)?;
    Ok(node_or(alloc, met, left)?)
}

/// How many of the branches are fields; these stand before the elements.
fn field_count<R: Narrow>(children: &[Child<R>]) -> usize
    requires { StepsRise (branches children.now) }
    ensures { AreFields children.now result }
{
    children.partition_point(|child| matches!(child.step(), Step::Label(_)))
}
