//! The rows of a table as bytes, one at a time: a walk over its branches that can stop behind each
//! row and go on later. What it has to come back to is a stack of places.

ghost use Rattle.std.specs.Prelude.{◌≡◌, ◌++◌, ◌∷◌, [], ◌<◌, ◌≤◌, length, true, false};
ghost use Rattle.std.specs.Prelude.{IfOk, IfSome, MatchOption, None, OnErr, OnOk};
ghost use Rattle.std.specs.Vec.{vec_len, vec_capacity};
ghost use Rattle.std.specs.Iterator.{YieldsFirstBy, item_count};
ghost use Rattle.cue_lattice.specs.Limits.{step_limit};
ghost use Rattle.cue_row.specs.Begun.{StillBegins};
ghost use Rattle.cue_table.specs.Depth.{tree_depth};
ghost use Rattle.cue_table.specs.Inner.ValidWalk.{IsSound};
ghost use Rattle.cue_codec.specs.Parts.{step_bytes};
ghost use Rattle.cue_codec.specs.Version.{written_version};
ghost use Rattle.cue_codec.specs.Inner.Ways.{step_of_way, HasShortStep, IsBranch};
ghost use Rattle.cue_codec.specs.Inner.Ways.{tree_bytes, branches_bytes, branches_in, branches_of};
ghost use Rattle.cue_codec.specs.Inner.Walks.{walk_bytes, IsWalk};

use crate::branches::put_place;
use crate::writing::{put_rest, put_step};
use cue_lattice::Memory;
use cue_row::Row;
use cue_table::{Branch, Children, StepRef};
use std::alloc::Global;

/// The step to a branch.
#[derive(Drop)]
pub enum Way<'a> {
    /// A label or an index.
    At(StepRef<'a>),
    /// The step to the rest of a list.
    ToRest,
}

/// The branches below a place that are left, each with the step to it, the rest behind the others.
#[derive(Drop)]
pub struct Branches<'a> {
    children: Children<'a, Row>,
    rest: Option<Branch<'a, Row>>,
}

impl<'a> Branches<'a> {
    fn of(branch: &Branch<'a, Row>) -> Branches<'a>
        ensures { branches_in result ≡ branches_of branch.now }
    {
        Branches {
            children: branch.children(),
            rest: branch.rest(),
        }
    }
}

impl<'a> Iterator for Branches<'a> {
    type Item = (Way<'a>, Branch<'a, Row>);

    ghost next_gives = { YieldsFirstBy (λ item. (step_of_way item.0, item.1)) branches_in };

    ghost remaining = { item_count branches_in };

    fn next(&mut self) -> Option<(Way<'a>, Branch<'a, Row>)> {
        if let Some((step, branch)) = self.children.next() {
            return Some((Way::At(step), branch));
        }
        let rest = self.rest.take()?;
        Some((Way::ToRest, rest))
    }
}

/// A place whose row was written, with the branches below it that are still to be written.
#[derive(Drop)]
pub struct WalkPlace<'a> {
    below: Branches<'a>,
    /// How many bytes the step to it has.
    size: usize,
}

/// What is still to be written of a table whose root was written. Each place of the stack is one
/// step below the one before it.
#[derive(Drop)]
pub struct RowWalk<'a> {
    /// The bytes of the steps to the last place of the stack.
    steps: Vec<u8>,
    stack: Vec<WalkPlace<'a>>,
    /// A branch below the last place that comes before the others there.
    next: Option<(Way<'a>, Branch<'a, Row>)>,
}

fn put_way(steps: &mut Vec<u8>, way: &Way<'_>) -> Result<(), Memory>
    requires { HasShortStep (step_of_way way.now) }
    ensures written { OnOk result (steps.new.items ≡ steps.old.items
        ++ step_bytes written_version (step_of_way way.now)) }
    ensures kept { OnErr result (StillBegins steps.old.items steps.new.items) }
{
    match way {
        Way::At(step) => put_step(steps, *step),
        Way::ToRest => put_rest(steps),
    }
}

/// As [`put_row`], with whatever was written where memory ran out.
fn put_some(
    out: &mut Vec<u8>,
    steps: &mut Vec<u8>,
    depth: u8,
    way: &Way<'_>,
    branch: &Branch<'_, Row>,
) -> Result<(), Memory>
    requires { IsBranch depth (step_of_way way.now, branch.now) }
    ensures steps { OnOk result (steps.new.items ≡ steps.old.items
        ++ step_bytes written_version (step_of_way way.now)) }
    ensures rows { OnOk result (out.new.items
        ++ branches_bytes depth steps.new.items (branches_of branch.now)
        ≡ out.old.items ++ tree_bytes depth steps.new.items branch.now) }
    ensures longer { OnOk result (length out.old.items < length out.new.items) }
    ensures out_kept { OnErr result (StillBegins out.old.items out.new.items) }
    ensures steps_kept { OnErr result (StillBegins steps.old.items steps.new.items) }
{
    put_way(steps, way)?;
    put_place(out, depth, steps.as_slice(), branch)
}

/// Writes the row at a branch that is so many steps from the root, and the step to it behind
/// those to the place above it. After want of memory all is as it was.
fn put_row(
    out: &mut Vec<u8>,
    steps: &mut Vec<u8>,
    depth: u8,
    way: &Way<'_>,
    branch: &Branch<'_, Row>,
) -> Result<(), Memory>
    requires { IsBranch depth (step_of_way way.now, branch.now) }
    ensures steps { OnOk result (steps.new.items ≡ steps.old.items
        ++ step_bytes written_version (step_of_way way.now)) }
    ensures rows { OnOk result (out.new.items
        ++ branches_bytes depth steps.new.items (branches_of branch.now)
        ≡ out.old.items ++ tree_bytes depth steps.new.items branch.now) }
    ensures longer { OnOk result (length out.old.items < length out.new.items) }
    ensures out_same { OnErr result (out.new.items ≡ out.old.items) }
    ensures steps_same { OnErr result (steps.new.items ≡ steps.old.items) }
{
    let before = out.len();
    let above = steps.len();
    match put_some(out, steps, depth, way, branch) {
        Ok(()) => Ok(()),
        Err(memory) => {
            out.truncate(before);
            steps.truncate(above);
            Err(memory)
        }
    }
}

impl<'a> RowWalk<'a> {
    /// The walk that has nothing to write.
    pub fn new(alloc: Global) -> RowWalk<'a>
        ensures walk { IsWalk result }
        ensures bytes { walk_bytes result ≡ [] }
    {
        RowWalk {
            steps: Vec::new(alloc),
            stack: Vec::new(alloc),
            next: None,
        }
    }

    /// Writes the row at the root, and is the walk over those below it.
    pub fn begin(
        alloc: Global,
        root: &Branch<'a, Row>,
        out: &mut Vec<u8>,
    ) -> Result<RowWalk<'a>, Memory>
        requires deep { tree_depth root.now ≤ step_limit }
        requires sound { IsSound root.now }
        ensures walk { IfOk result IsWalk }
        ensures bytes { IfOk result (λ walk. out.new.items ++ walk_bytes walk
            ≡ out.old.items ++ tree_bytes 0 [] root.now) }
    {
        let steps = Vec::new(alloc);
        put_place(out, 0, steps.as_slice(), root)?;
        let mut stack = Vec::new(alloc);
        stack.push(WalkPlace {
            below: Branches::of(root),
            size: 0,
        })?;
        Ok(RowWalk {
            steps,
            stack,
            next: None,
        })
    }

    /// Takes the branch whose row comes next. The places below which nothing is left go.
    fn take_next(&mut self) -> Option<(Way<'a>, Branch<'a, Row>)>
        requires { IsWalk self.old }
        ensures walk { IsWalk self.new }
        ensures none { self.new.next ≡ None }
        ensures bytes { MatchOption result ((walk_bytes self.old ≡ []) × (walk_bytes self.new ≡ []))
            (λ item. walk_bytes self.old ≡ tree_bytes (length self.new.stack.items)
            (self.new.steps.items ++ step_bytes written_version (step_of_way item.0)) item.1
            ++ walk_bytes self.new) }
        ensures branch { IfSome result (λ item.
            IsBranch (length self.new.stack.items) (step_of_way item.0, item.1)) }
        ensures no_more { vec_len self.new.stack ≤ vec_len self.old.stack }
        ensures capacity { vec_capacity self.new.stack ≡ vec_capacity self.old.stack }
    {
        if let Some(next) = self.next.take() {
            return Some(next);
        }
        while let Some(mut place) = self.stack.pop() {
            if let Some(next) = place.below.next() {
                self.stack.push_reserved(place);
                return Some(next);
            }
            self.steps.truncate(self.steps.len() - place.size);
        }
        None
    }

    /// Writes the next row, and says whether there was one. After want of memory what was written
    /// and what is left are as they were.
    pub fn write_next(&mut self, out: &mut Vec<u8>) -> Result<bool, Memory>
        requires { IsWalk self.old }
        ensures walk { IsWalk self.new }
        ensures same { out.new.items ++ walk_bytes self.new ≡ out.old.items ++ walk_bytes self.old }
        ensures no_fewer { length out.old.items ≤ length out.new.items }
        ensures more { IfOk result (λ more. more ≡ true
            → length out.old.items < length out.new.items) }
        ensures end { IfOk result (λ more. more ≡ false → walk_bytes self.new ≡ []) }
    {
        self.stack.reserve(1)?;
        let Some((way, branch)) = self.take_next() else {
            return Ok(false);
        };
        let above = self.steps.len();
        let depth = self.stack.len() as u8;
        if let Err(memory) = put_row(out, &mut self.steps, depth, &way, &branch) {
            self.next = Some((way, branch));
            return Err(memory);
        }
        let place = WalkPlace {
            below: Branches::of(&branch),
            size: self.steps.len() - above,
        };
        self.stack.push_reserved(place);
        Ok(true)
    }
}
