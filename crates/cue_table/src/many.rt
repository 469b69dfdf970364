//! Many tables as one.
ghost use Rattle.std.specs.Prelude.{◌≡◌, ◌↔◌, ◌<◌, drop, filter, map, take, None, All};
ghost use Rattle.std.specs.Prelude.{IfOk, IsPermutation, IsTrue, OnOk};
ghost use Rattle.std.specs.Vec.Iter.{into_iter_items};
ghost use Rattle.cue_lattice.specs.Limits.{step_limit};
ghost use Rattle.cue_table.specs.Depth.{tree_depth};
ghost use Rattle.cue_table.specs.Form.{IsTable};
ghost use Rattle.cue_table.specs.Inner.Form.{StepsRise};
ghost use Rattle.cue_table.specs.Inner.Given.{given_of, has_rows, tree_of_branch, IsBranch};
ghost use Rattle.cue_table.specs.Inner.View.{branches};
ghost use Rattle.cue_table.specs.Many.{IsOfBranches, AreUnified};
ghost use Rattle.cue_table.specs.Tree.{node, no_rest};

use crate::Table;
use crate::chain::last_against;
use crate::child::Child;
use crate::node::Node;
use crate::one_step::{common_step, of_one_step};
use cue_lattice::{Memory, Narrow};
use cue_row::Step;
use std::alloc::Global;
use std::cmp::Ordering;
use std::vec::IntoIter;

/// From so many branches on, sorting them by the heads of their steps takes less than without.
const MANY: usize = 32;

impl<R: Narrow> Table<R> {
    /// What the tables of a list know together: refuses exactly what one of them does. Of an empty
    /// list it is the table without rows. The tables are taken over and not copied, and unified by
    /// halves.
    pub fn unify_all(alloc: Global, tables: Vec<Table<R>>) -> Result<Table<R>, Memory>
        ensures form { IfOk result (IsTable R.refuses R.is_value) }
        ensures refused { IfOk result (AreUnified R.refuses tables.items) }
    {
        let count = tables.len();
        let mut rest = tables.into_iter();
        unify_next(alloc, &mut rest, count)
    }

    /// The table of branches that are given in any order, each less than 64 steps deep, as
    /// [`Table::depth`] tells: it knows nothing at the root, and below a step what the tables given
    /// for this step know together. The tables are taken over and not copied. In the order of their
    /// steps they are the branches of the table; those at a step that is there already are unified
    /// by halves.
    pub fn of_branches(alloc: Global, branches: Vec<(Step, Table<R>)>) -> Result<Table<R>, Memory>
        requires { All (λ one. tree_depth one.1 < step_limit) branches.items }
        ensures form { IfOk result (IsTable R.refuses R.is_value) }
        ensures refused { IfOk result (IsOfBranches R.refuses branches.items) }
    {
        let children = children_of(alloc, branches)?;
        if is_rising(&children) {
            return Ok(of_rising(alloc, children));
        }
        of_any(alloc, children)
    }
}

/// The tables that have rows, each as a branch at its step, in the order in which they are given.
fn children_of<R: Narrow>(
    alloc: Global,
    given: Vec<(Step, Table<R>)>,
) -> Result<Vec<Child<R>>, Memory>
    requires { All (λ one. tree_depth one.1 < step_limit) given.items }
    ensures same { IfOk result (λ children.
        map given_of children.items ≡ filter has_rows given.items) }
    ensures branches { IfOk result (λ children.
        All (IsBranch R.refuses R.is_value) children.items) }
{
    let mut children = Vec::with_capacity(alloc, given.len())?;
    for (step, table) in given {
        if table.has_rows() {
            children.push(Child::new(alloc, step, table.into_root())?)?;
        }
    }
    Ok(children)
}

/// Whether each branch stands at a step behind that of the one before it.
fn is_rising<R: Narrow>(children: &[Child<R>]) -> bool
    ensures { IsTrue result ↔ StepsRise (branches children.now) }
{
    children.is_sorted_by(|one, other| one.step().compare(other.step()).is_lt())
}

/// The table that has these branches below its root.
fn of_rising<R: Narrow>(alloc: Global, children: Vec<Child<R>>) -> Table<R>
    requires branches { All (IsBranch R.refuses R.is_value) children.items }
    requires rise { StepsRise (branches children.items) }
    ensures same { result ≡ node None (branches children.items) no_rest }
    ensures form { IsTable R.refuses R.is_value result }
{
    let root = Node {
        row: None,
        children,
        rest: None,
    };
    Table::of_root(alloc, root)
}

/// The table of branches in any order.
fn of_any<R: Narrow>(alloc: Global, children: Vec<Child<R>>) -> Result<Table<R>, Memory>
    requires { All (IsBranch R.refuses R.is_value) children.items }
    ensures form { IfOk result (IsTable R.refuses R.is_value) }
    ensures refused { IfOk result (IsOfBranches R.refuses (map given_of children.items)) }
{
    if let Some(step) = common_step(&children) {
        let own = step.copy(alloc)?;
        return of_one_step(alloc, own, children);
    }
    of_steps(alloc, children)
}

/// The table of branches in any order, which are put in that of their steps.
pub(crate) fn of_steps<R: Narrow>(
    alloc: Global,
    children: Vec<Child<R>>,
) -> Result<Table<R>, Memory>
    requires { All (IsBranch R.refuses R.is_value) children.items }
    ensures form { IfOk result (IsTable R.refuses R.is_value) }
    ensures refused { IfOk result (IsOfBranches R.refuses (map given_of children.items)) }
{
    let sorted = sort_children(alloc, children)?;
    if is_rising(&sorted) {
        return Ok(of_rising(alloc, sorted));
    }
    met_together(alloc, sorted)
}

/// Puts branches in the order of their steps.
fn sort_children<R: Narrow>(
    alloc: Global,
    mut children: Vec<Child<R>>,
) -> Result<Vec<Child<R>>, Memory>
    ensures { IfOk result (λ sorted. IsPermutation children.items sorted.items) }
{
    if children.len() >= MANY && are_heads_apart(&children) {
        return sort_by_heads(alloc, children);
    }
    children.sort_by(|one, other| one.step().compare(other.step()))?;
    Ok(children)
}

/// Whether the steps of the first and the last branch have different heads. Where one label stands
/// again and again they have not.
fn are_heads_apart<R: Narrow>(children: &[Child<R>]) -> bool {
    match (children.first(), children.last()) {
        (Some(first), Some(last)) => head_of(first.step()) != head_of(last.step()),
        _ => false,
    }
}

/// Puts many branches in the order of their steps. The first bytes of each step stand beside its
/// branch, so that most comparisons look at no text.
fn sort_by_heads<R: Narrow>(alloc: Global, children: Vec<Child<R>>) -> Result<Vec<Child<R>>, Memory>
    ensures { IfOk result (λ sorted. IsPermutation children.items sorted.items) }
{
    let mut headed = with_heads(alloc, children)?;
    headed.sort_unstable_by(|one, other| match one.0.cmp(&other.0) {
        Ordering::Equal => one.1.step().compare(other.1.step()),
        order => order,
    });
    without_heads(alloc, headed)
}

/// Branches with the heads of their steps.
fn with_heads<R: Narrow>(
    alloc: Global,
    children: Vec<Child<R>>,
) -> Result<Vec<(u64, Child<R>)>, Memory>
    ensures { IfOk result (λ headed. map (λ one. one.1) headed.items ≡ children.items) }
{
    let mut headed = Vec::with_capacity(alloc, children.len())?;
    for child in children {
        headed.push((head_of(child.step()), child))?;
    }
    Ok(headed)
}

/// Branches alone.
fn without_heads<R: Narrow>(
    alloc: Global,
    headed: Vec<(u64, Child<R>)>,
) -> Result<Vec<Child<R>>, Memory>
    ensures { IfOk result (λ children. children.items ≡ map (λ one. one.1) headed.items) }
{
    let mut children = Vec::with_capacity(alloc, headed.len())?;
    for (_, child) in headed {
        children.push(child)?;
    }
    Ok(children)
}

/// The first eight bytes of a label as a number, with zeros behind a shorter one; the greatest
/// number for an index. Where one step is before another, its head is not above that one's.
fn head_of(step: &Step) -> u64 {
    match step {
        Step::Index(_) => u64::MAX,
        Step::Label(label) => {
            let bytes = label.as_bytes();
            match bytes.first_chunk::<8>() {
                Some(first) => u64::from_be_bytes(*first),
                None => short_head(bytes),
            }
        }
    }
}

/// The bytes of a label shorter than eight bytes as a number, with zeros behind them.
fn short_head(bytes: &[u8]) -> u64 {
    let mut first = [0; 8];
    for (at, byte) in bytes.iter().enumerate() {
        if at < first.len() {
            first[at] = *byte;
        }
    }
    u64::from_be_bytes(first)
}

/// The table of branches of which some stand at one step. A branch behind all before it is one of
/// the table; the others are unified by halves, and then with these.
fn met_together<R: Narrow>(alloc: Global, children: Vec<Child<R>>) -> Result<Table<R>, Memory>
    requires { All (IsBranch R.refuses R.is_value) children.items }
    ensures form { IfOk result (IsTable R.refuses R.is_value) }
    ensures refused { IfOk result (IsOfBranches R.refuses (map given_of children.items)) }
{
    let mut front = Vec::with_capacity(alloc, children.len())?;
    let mut others = Vec::new(alloc);
    for child in children {
        if last_against(&front, child.step()).is_lt() {
            front.push(child)?;
        } else {
            others.push(of_branch(alloc, child)?)?;
        }
    }
    let mut table = of_rising(alloc, front);
    table.meet_with(Table::unify_all(alloc, others)?)?;
    Ok(table)
}

/// The table of one branch.
pub(crate) fn of_branch<R: Narrow>(alloc: Global, child: Child<R>) -> Result<Table<R>, Memory>
    requires { IsBranch R.refuses R.is_value child }
    ensures { IfOk result (λ table. table ≡ tree_of_branch child) }
{
    let mut children = Vec::with_capacity(alloc, 1)?;
    children.push(child)?;
    Ok(of_rising(alloc, children))
}

/// What the next tables of a list know together.
fn unify_next<R: Narrow>(
    alloc: Global,
    rest: &mut IntoIter<Table<R>, Global>,
    count: usize,
) -> Result<Table<R>, Memory>
    ensures form { IfOk result (IsTable R.refuses R.is_value) }
    ensures refused { IfOk result (AreUnified R.refuses (take count (into_iter_items rest.old))) }
    ensures rest { OnOk result (into_iter_items rest.new ≡ drop count (into_iter_items rest.old)) }
{
    if count == 0 {
        return Ok(Table::new(alloc));
    }
    if count == 1 {
        return match rest.next() {
            None => Ok(Table::new(alloc)),
            Some(table) => Ok(table),
        };
    }
    let half = count / 2;
    let mut met = unify_next(alloc, rest, half)?;
    met.meet_with(unify_next(alloc, rest, count - half)?)?;
    Ok(met)
}
