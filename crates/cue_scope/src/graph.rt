ghost use Rattle.std.specs.Prelude.{◌≡◌, ◌+◌, ◌<◌, ◌≤◌, ◌↔◌, ◌++◌, ◌∷◌, [], ℕ, length};
ghost use Rattle.std.specs.Prelude.{slice_index, slice_index_or, slice_set, IfOk, IfErr, OnOk};
ghost use Rattle.std.specs.Prelude.{MatchOption, vec_len, true, false, not};
ghost use Rattle.std.specs.Vec.{vec_capacity};
ghost use Rattle.std.specs.List.{count_by};
ghost use Rattle.std.specs.Bool.{OnTrue};
ghost use Rattle.cue_lattice.specs.Refusal.{memory};
ghost use Rattle.cue_scope.specs.Graph.{IsNodeIn, targets, PointsTo, IsReached, Reaches, IsClosed};
ghost use Rattle.cue_scope.specs.Graph.{IsFirstCycle};
ghost use Rattle.cue_scope.specs.Ordering.{graph_of};
ghost use Rattle.cue_scope.specs.Inner.Ordering.{first_open, is_ready};
ghost use Rattle.cue_scope.specs.Inner.Ordering.{IsOrderOf, IsPlaced, HasNoReadyNode, Spread};

use crate::components::Components;
use crate::memory::{flags, new_numbers, push, zeros};
use cue_lattice::Refusal;
use std::alloc::Global;

/// The nodes of a graph in an order, or why they have none.
#[derive(Drop)]
pub(crate) enum Order {
    /// Each node comes after those that it points to.
    Ordered(Vec<usize>),
    /// The first node that reaches itself.
    Cycle(usize),
}

/// Nodes that were placed, each after those that it points to.
#[derive(Drop)]
struct Placed {
    order: Vec<usize>,
    /// For each node its place in the order, counted from 1, or 0 where it has none.
    ranks: Vec<usize>,
}

/// Orders a graph, whose nodes are numbered from 0.
///
/// # Errors
///
/// `Memory`.
pub(crate) fn order_of(alloc: Global, graph: &[Vec<usize>]) -> Result<Order, Refusal>
    requires { IsClosed (graph_of graph.now) }
    ensures ordered { IfOk result (IsOrderOf (graph_of graph.now)) }
    ensures memory { IfErr result (λ r. r ≡ memory) }
{
    // A cycle that was found is named without asking for more memory.
    let mut passed = flags(alloc, graph.len())?;
    let mut waiting = new_numbers(alloc, graph.len())?;
    let components = Components::of(alloc, graph)?;
    let placed = place(alloc, graph, &components.nodes)?;
    match find_unranked(&placed.ranks) {
        None => Ok(Order::Ordered(placed.order)),
        Some(node) => {
            let last = find_cycle(graph, &placed.ranks, &mut passed, node);
            let first = first_cycle(graph, &placed, &components, &mut passed, &mut waiting, last);
            Ok(Order::Cycle(first))
        }
    }
}

/// What a node points to.
pub fn targets<'g>(graph: &'g [Vec<usize>], node: usize) -> &'g [usize]
    requires { node < length graph.now }
    ensures { result.now ≡ targets (graph_of graph.now) node }
{
    graph[node].as_slice()
}

/// Places each node that can be placed. The list of nodes only saves time: nodes that come in it
/// after those that they point to are placed at once.
fn place(alloc: Global, graph: &[Vec<usize>], nodes: &[usize]) -> Result<Placed, Refusal>
    requires { IsClosed (graph_of graph.now) }
    ensures placed { IfOk result (λ r. IsPlaced (graph_of graph.now) r.order.items r.ranks.items) }
    ensures stuck { IfOk result (λ r. HasNoReadyNode (graph_of graph.now) r.ranks.items) }
    ensures memory { IfErr result (λ r. r ≡ memory) }
{
    let mut order = Vec::new(alloc);
    let mut ranks = zeros(alloc, graph.len())?;
    for node in nodes {
        if is_ready(graph, &ranks, *node) {
            add(&mut order, &mut ranks, *node)?;
        }
    }
    while let Some(node) = first_ready(graph, &ranks) {
        add(&mut order, &mut ranks, node)?;
    }
    Ok(Placed { order, ranks })
}

/// Puts a node after the others.
fn add(order: &mut Vec<usize>, ranks: &mut Vec<usize>, node: usize) -> Result<(), Refusal>
    requires { node < vec_len ranks.old }
    ensures order { OnOk result (order.new.items ≡ order.old.items ++ node ∷ []) }
    ensures ranks { OnOk result (ranks.new.items
        ≡ slice_set ranks.old.items node (length order.old.items + 1)) }
    ensures memory { IfErr result (λ r. r ≡ memory) }
{
    push(order, node)?;
    ranks[node] = order.len();
    Ok(())
}

/// The first of the nodes that has no rank.
fn first_open(ranks: &[usize], nodes: &[usize]) -> Option<usize>
    requires { (j : ℕ) → IsNodeIn j nodes.now → j < length ranks.now }
    ensures { result ≡ first_open ranks.now nodes.now }
{
    for node in nodes {
        if ranks[*node] == 0 {
            return Some(*node);
        }
    }
    None
}

/// Whether a node has no rank, and all that it points to have one.
fn is_ready(graph: &[Vec<usize>], ranks: &[usize], node: usize) -> bool
    requires closed { IsClosed (graph_of graph.now) }
    requires lengths { length ranks.now ≡ length graph.now }
    ensures { result ≡ is_ready (graph_of graph.now) ranks.now node }
{
    if node >= ranks.len() || ranks[node] != 0 {
        return false;
    }
    first_open(ranks, targets(graph, node)).is_none()
}

/// A node that is ready.
fn first_ready(graph: &[Vec<usize>], ranks: &[usize]) -> Option<usize>
    requires closed { IsClosed (graph_of graph.now) }
    requires lengths { length ranks.now ≡ length graph.now }
    ensures { MatchOption result (HasNoReadyNode (graph_of graph.now) ranks.now)
        (λ i. is_ready (graph_of graph.now) ranks.now i ≡ true) }
{
    for node in 0..ranks.len() {
        if is_ready(graph, ranks, node) {
            return Some(node);
        }
    }
    None
}

/// A node without a rank.
fn find_unranked(ranks: &[usize]) -> Option<usize>
    ensures { MatchOption result ((i : ℕ) → i < length ranks.now → 0 < slice_index ranks.now i)
        (λ i. (i < length ranks.now) × (slice_index ranks.now i ≡ 0)) }
{
    for (node, rank) in ranks.iter().enumerate() {
        if *rank == 0 {
            return Some(node);
        }
    }
    None
}

/// A node that reaches itself, found by going from a node without a rank to others without one.
/// None was passed yet.
fn find_cycle(
    graph: &[Vec<usize>],
    ranks: &[usize],
    passed: &mut Vec<bool>,
    mut node: usize,
) -> usize
    requires closed { IsClosed (graph_of graph.now) }
    requires lengths { length ranks.now ≡ length graph.now }
    requires stuck { HasNoReadyNode (graph_of graph.now) ranks.now }
    requires inside { node < length ranks.now }
    requires unplaced { slice_index ranks.now node ≡ 0 }
    requires none { (i : ℕ) → slice_index_or passed.old.items i false ≡ false }
    requires flags { length passed.old.items ≡ length graph.now }
    ensures found { Reaches (graph_of graph.now) result result × (result < length graph.now) }
    ensures flags { length passed.new.items ≡ length graph.now }
{
    while !passed[node] {
        passed[node] = true;
        node = first_open(ranks, targets(graph, node)).unwrap();
    }
    node
}

/// The first node that reaches itself, where `last` does.
fn first_cycle(
    graph: &[Vec<usize>],
    placed: &Placed,
    components: &Components,
    reached: &mut Vec<bool>,
    waiting: &mut Vec<usize>,
    last: usize,
) -> usize
    requires closed { IsClosed (graph_of graph.now) }
    requires placed { IsPlaced (graph_of graph.now) placed.now.order.items placed.now.ranks.items }
    requires cycle { Reaches (graph_of graph.now) last last }
    requires inside { last < length graph.now }
    requires flags { length reached.old.items ≡ length graph.now }
    requires room { length graph.now ≤ vec_capacity waiting.old }
    ensures first { IsFirstCycle (graph_of graph.now) result × (result < length graph.now) }
{
    let falls = components.descends(graph);
    for node in 0..last {
        if placed.ranks[node] != 0 {
            continue;
        }
        if is_cyclic(graph, components, falls, reached, waiting, node) {
            return node;
        }
    }
    last
}

/// Whether a node reaches itself, where components may tell that none of its targets leads back.
fn is_cyclic(
    graph: &[Vec<usize>],
    components: &Components,
    falls: bool,
    reached: &mut Vec<bool>,
    waiting: &mut Vec<usize>,
    node: usize,
) -> bool
    requires closed { IsClosed (graph_of graph.now) }
    requires falls { OnTrue falls ((i j : ℕ) → PointsTo (graph_of graph.now) i j →
        slice_index components.now.numbers.items j ≤ slice_index components.now.numbers.items i) }
    requires inside { node < length graph.now }
    requires flags { length reached.old.items ≡ length graph.now }
    requires room { length graph.now ≤ vec_capacity waiting.old }
    ensures reaches { (result ≡ true) ↔ Reaches (graph_of graph.now) node node }
    ensures flags { length reached.new.items ≡ length graph.now }
    ensures room { vec_capacity waiting.new ≡ vec_capacity waiting.old }
{
    if falls && components.descends_from(graph, node) {
        return false;
    }
    flood(graph, reached, waiting, targets(graph, node));
    reached[node]
}

/// The nodes that are reached from those in a list, which are reached too.
pub(crate) fn reach_all(
    alloc: Global,
    graph: &[Vec<usize>],
    from: &[usize],
) -> Result<Vec<bool>, Refusal>
    requires closed { IsClosed (graph_of graph.now) }
    requires inside { (i : ℕ) → IsNodeIn i from.now → i < length graph.now }
    ensures length { IfOk result (λ v. length v.items ≡ length graph.now) }
    ensures reached { IfOk result (λ v. (i : ℕ) →
        (slice_index_or v.items i false ≡ true) ↔ IsReached (graph_of graph.now) from.now i) }
    ensures memory { IfErr result (λ r. r ≡ memory) }
{
    let mut reached = flags(alloc, graph.len())?;
    let mut waiting = new_numbers(alloc, graph.len())?;
    flood(graph, &mut reached, &mut waiting, from);
    Ok(reached)
}

/// Marks the nodes that are reached from those in a list, and no others. It asks for no memory:
/// no more nodes wait than the graph has.
fn flood(graph: &[Vec<usize>], reached: &mut Vec<bool>, waiting: &mut Vec<usize>, from: &[usize])
    requires closed { IsClosed (graph_of graph.now) }
    requires inside { (i : ℕ) → IsNodeIn i from.now → i < length graph.now }
    requires flags { length reached.old.items ≡ length graph.now }
    requires room { length graph.now ≤ vec_capacity waiting.old }
    ensures reached { (i : ℕ) → (slice_index_or reached.new.items i false ≡ true)
        ↔ IsReached (graph_of graph.now) from.now i }
    ensures flags { length reached.new.items ≡ length graph.now }
    ensures room { vec_capacity waiting.new ≡ vec_capacity waiting.old }
{
    unmark(reached);
    waiting.clear();
    spread(reached, waiting, from);
    while let Some(node) = waiting.pop() {
        spread(reached, waiting, targets(graph, node));
    }
}

/// Takes all marks away.
fn unmark(reached: &mut Vec<bool>)
    ensures none { (i : ℕ) → slice_index_or reached.new.items i false ≡ false }
    ensures length { length reached.new.items ≡ length reached.old.items }
{
    for node in 0..reached.len() {
        reached[node] = false;
    }
}

/// Reaches each node in a list, and opens those that weren't reached before, for which there is
/// room.
fn spread(reached: &mut Vec<bool>, waiting: &mut Vec<usize>, nodes: &[usize])
    requires inside { (i : ℕ) → IsNodeIn i nodes.now → i < vec_len reached.old }
    requires room { count_by not reached.old.items + length waiting.old.items
        ≤ vec_capacity waiting.old }
    ensures spread { Spread reached.old.items reached.new.items waiting.old.items waiting.new.items
        nodes.now }
    ensures room { vec_capacity waiting.new ≡ vec_capacity waiting.old }
{
    for node in nodes {
        if !reached[*node] {
            waiting.push_reserved(*node);
            reached[*node] = true;
        }
    }
}
