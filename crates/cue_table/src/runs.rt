//! Where an element is among runs of elements that are alike.
ghost use Rattle.std.specs.Prelude.{◌≡◌, MatchResult, IsTrue};
ghost use Rattle.std.specs.Option.{option_map};
ghost use Rattle.cue_lattice.specs.Path.{index};
ghost use Rattle.cue_table.specs.Inner.Form.{StepsRise};
ghost use Rattle.cue_table.specs.Inner.Alike.{AreAlike, IsRun, IsBetween, run_cmp};
ghost use Rattle.cue_table.specs.Inner.Place.{HasAtIndex, IsGap, IsPlace};
ghost use Rattle.cue_table.specs.Inner.View.{branches, run_branches};
ghost use Rattle.cue_table.specs.Tree.{below, find, step_into};

use crate::child::Child;
use crate::node::{ElementRun, Node, place};
use cue_lattice::Narrow;
use cue_row::Step;
use std::cmp::Ordering;

/// An element found at an index, and an index behind it up to which all elements are alike.
#[derive(Drop)]
pub(crate) struct FoundElement<'a, R: Narrow> {
    pub(crate) node: Option<&'a Node<R>>,
    pub(crate) end: u64,
}

impl<R: Narrow> ElementRun<R> {
    /// Whether its elements stand before an index, at it, or behind it.
    fn compare(&self, number: u32) -> Ordering
        ensures { result ≡ run_cmp number self.now }
    {
        if self.last() < number {
            Ordering::Less
        } else if number < self.first {
            Ordering::Greater
        } else {
            Ordering::Equal
        }
    }
}

/// Where the run of an element is among runs, or where it would stand.
fn run_place<R: Narrow>(runs: &[ElementRun<R>], number: u32) -> Result<usize, usize>
    requires { StepsRise (run_branches runs.now) }
    ensures { MatchResult result (IsRun runs.now number) (IsBetween runs.now number) }
{
    runs.binary_search_by(|run| run.compare(number))
}

/// The element with an index among runs.
pub(crate) fn find_run<R: Narrow>(runs: &[ElementRun<R>], number: u32) -> Option<&Node<R>>
    requires { StepsRise (run_branches runs.now) }
    ensures { option_map (λ node. node.now) result
        ≡ find (index number) (run_branches runs.now) }
{
    match run_place(runs, number) {
        Ok(at) => Some(&runs[at].node),
        Err(_) => None,
    }
}

/// The element with an index among runs, and up to where these are alike.
fn look_in_runs<R: Narrow>(runs: &[ElementRun<R>], number: u32) -> FoundElement<R>
    requires { StepsRise (run_branches runs.now) }
    ensures node { option_map (λ node. node.now) result.node
        ≡ find (index number) (run_branches runs.now) }
    ensures alike { AreAlike number result.end (λ i. find (index i) (run_branches runs.now)) }
{
    match run_place(runs, number) {
        Ok(at) => FoundElement {
            node: Some(&runs[at].node),
            end: u64::from(runs[at].last()) + 1,
        },
        Err(at) if at < runs.len() => FoundElement {
            node: None,
            end: u64::from(runs[at].first),
        },
        Err(_) => FoundElement {
            node: None,
            end: u64::MAX,
        },
    }
}

/// Where an element is among branches, or where it would stand. Where a list has each element and no
/// label stands beside these, an element is at the place that its index says.
fn element_place<R: Narrow>(children: &[Child<R>], number: u32) -> Result<usize, usize>
    requires { StepsRise (branches children.now) }
    ensures { MatchResult result (IsPlace children.now (index number))
        (IsGap children.now (index number)) }
{
    if is_at_index(children, number) {
        return Ok(number as usize);
    }
    place(children, &Step::Index(number))
}

/// Whether as many branches as an index says are in front of the element with this index.
fn is_at_index<R: Narrow>(children: &[Child<R>], number: u32) -> bool
    ensures { IsTrue result → HasAtIndex children.now number }
{
    match children.get(number as usize) {
        Some(child) => matches!(child.step(), Step::Index(found) if *found == number),
        None => false,
    }
}

/// The element with an index among branches.
pub(crate) fn find_element<R: Narrow>(children: &[Child<R>], number: u32) -> Option<&Node<R>>
    requires { StepsRise (branches children.now) }
    ensures { option_map (λ node. node.now) result
        ≡ find (index number) (branches children.now) }
{
    match element_place(children, number) {
        Ok(at) => Some(children[at].node()),
        Err(_) => None,
    }
}

/// The element with an index among branches, and up to where these are alike.
fn look_among<R: Narrow>(children: &[Child<R>], number: u32) -> FoundElement<R>
    requires { StepsRise (branches children.now) }
    ensures node { option_map (λ node. node.now) result.node
        ≡ find (index number) (branches children.now) }
    ensures alike { AreAlike number result.end (λ i. find (index i) (branches children.now)) }
{
    match element_place(children, number) {
        Ok(at) => FoundElement {
            node: Some(children[at].node()),
            end: u64::from(number) + 1,
        },
        Err(at) => FoundElement {
            node: None,
            end: gap_end(children, at, number),
        },
    }
}

/// The index of the next element among branches, where none has this index.
fn gap_end<R: Narrow>(children: &[Child<R>], at: usize, number: u32) -> u64
    requires rise { StepsRise (branches children.now) }
    requires gap { IsGap children.now (index number) at }
    ensures { AreAlike number result (λ i. find (index i) (branches children.now)) }
{
    if at >= children.len() {
        return u64::MAX;
    }
    match children[at].step() {
        // No label stands behind an index.
        Step::Label(_) => u64::from(number) + 1,
        Step::Index(next) => u64::from(*next),
    }
}

impl<R: Narrow> Node<R> {
    /// The element with an index, and up to where all are alike.
    pub(crate) fn look_at_index(&self, number: u32) -> FoundElement<R>
        requires { StepsRise (below self.now) }
        ensures node { option_map (λ node. node.now) result.node
            ≡ step_into self.now (index number) }
        ensures alike { AreAlike number result.end (λ i. step_into self.now (index i)) }
    {
        let own = look_among(&self.children, number);
        let Some(onward) = &self.rest else {
            return own;
        };
        if u64::from(number) >= onward.from {
            return FoundElement {
                node: Some(&onward.node),
                end: u64::MAX,
            };
        }
        let further = look_in_runs(&onward.runs, number);
        FoundElement {
            node: own.node.or(further.node),
            end: own.end.min(further.end).min(onward.from),
        }
    }
}
