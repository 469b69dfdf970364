ghost use Rattle.std.specs.Prelude.{◌≡◌, ◌<◌, ◌≤◌, ℕ, length, slice_index, IfErr};
ghost use Rattle.std.specs.Bool.{OnTrue};
ghost use Rattle.cue_lattice.specs.Refusal.{memory};
ghost use Rattle.cue_scope.specs.Graph.{PointsTo};
ghost use Rattle.cue_scope.specs.Ordering.{graph_of};

use crate::graph::targets;
use crate::memory::{push, zeros};
use cue_lattice::Refusal;
use std::alloc::Global;

/// A guess at the strongly connected components of a graph, by Tarjan's search. Nothing rests on it
/// but time.
#[derive(Drop)]
pub struct Components {
    /// The nodes, each component after those that it points to.
    pub nodes: Vec<usize>,
    /// For each node the number of its component, in that order.
    pub numbers: Vec<usize>,
}

/// A search from node to node along a path.
#[derive(Drop)]
struct ComponentSearch<'g> {
    graph: &'g [Vec<usize>],
    /// For each node when it was seen, counted from 1, or 0.
    seen: Vec<usize>,
    /// For each node the earliest node that is known to be in its component, by when that was seen.
    low: Vec<usize>,
    /// The nodes that were seen and have no component yet.
    waiting: Vec<usize>,
    /// The path, with how many targets of each node were looked at.
    path: Vec<(usize, usize)>,
    count: usize,
    found: Components,
}

fn at(values: &[usize], place: usize) -> usize
    ensures { result ≡ slice_index values.now place }
{
    values.get(place).copied().unwrap_or(0)
}

fn put(values: &mut [usize], place: usize, value: usize) {
    if place < values.len() {
        values[place] = value;
    }
}

impl Components {
    pub fn of(alloc: Global, graph: &[Vec<usize>]) -> Result<Components, Refusal>
        ensures { IfErr result (λ r. r ≡ memory) }
    {
        let mut search = ComponentSearch {
            graph,
            seen: zeros(alloc, graph.len())?,
            low: zeros(alloc, graph.len())?,
            waiting: Vec::new(alloc),
            path: Vec::new(alloc),
            count: 0,
            found: Components {
                nodes: Vec::new(alloc),
                numbers: zeros(alloc, graph.len())?,
            },
        };
        for node in 0..graph.len() {
            if at(&search.seen, node) == 0 {
                search.enter(node)?;
                search.run()?;
            }
        }
        Ok(search.found)
    }

    /// Whether no node points to a component of a greater number.
    pub fn descends(&self, graph: &[Vec<usize>]) -> bool
        ensures { OnTrue result ((i j : ℕ) → PointsTo (graph_of graph.now) i j →
            slice_index self.now.numbers.items j ≤ slice_index self.now.numbers.items i) }
    {
        for node in 0..graph.len() {
            for target in targets(graph, node) {
                if at(&self.numbers, *target) > at(&self.numbers, node) {
                    return false;
                }
            }
        }
        true
    }

    /// Whether a node points to components of smaller numbers alone.
    pub fn descends_from(&self, graph: &[Vec<usize>], node: usize) -> bool
        requires { node < length graph.now }
        ensures { OnTrue result ((j : ℕ) → PointsTo (graph_of graph.now) node j →
            slice_index self.now.numbers.items j < slice_index self.now.numbers.items node) }
    {
        for target in targets(graph, node) {
            if at(&self.numbers, *target) >= at(&self.numbers, node) {
                return false;
            }
        }
        true
    }
}

impl<'g> ComponentSearch<'g> {
    fn enter(&mut self, node: usize) -> Result<(), Refusal>
        ensures { IfErr result (λ r. r ≡ memory) }
    {
        self.count = self.count.saturating_add(1);
        put(&mut self.seen, node, self.count);
        put(&mut self.low, node, self.count);
        push(&mut self.waiting, node)?;
        push(&mut self.path, (node, 0))
    }

    fn lower(&mut self, node: usize, low: usize) {
        let low = low.min(at(&self.low, node));
        put(&mut self.low, node, low);
    }

    fn run(&mut self) -> Result<(), Refusal>
        ensures { IfErr result (λ r. r ≡ memory) }
    {
        // Each step looks at a target or leaves a node, and no path is longer than memory.
        for _ in 0..u64::MAX {
            let Some((node, looked)) = self.path.pop() else {
                break;
            };
            self.go_on(node, looked)?;
        }
        Ok(())
    }

    /// Looks at the next target of a node of the path, or leaves the node.
    fn go_on(&mut self, node: usize, looked: usize) -> Result<(), Refusal>
        ensures { IfErr result (λ r. r ≡ memory) }
    {
        let targets = self
            .graph
            .get(node)
            .map_or(&[][..], |targets| targets.as_slice());
        let Some(target) = targets.get(looked) else {
            return self.leave(node);
        };
        push(&mut self.path, (node, looked.saturating_add(1)))?;
        let seen = at(&self.seen, *target);
        if seen == 0 {
            return self.enter(*target);
        }
        if at(&self.found.numbers, *target) == 0 {
            self.lower(node, seen);
        }
        Ok(())
    }

    /// Leaves a node, and with it its component where the node was the first of it.
    fn leave(&mut self, node: usize) -> Result<(), Refusal>
        ensures { IfErr result (λ r. r ≡ memory) }
    {
        let low = at(&self.low, node);
        if let Some((before, _)) = self.path.last().copied() {
            self.lower(before, low);
        }
        if low != at(&self.seen, node) {
            return Ok(());
        }
        let number = self.found.nodes.len().saturating_add(1);
        while let Some(last) = self.waiting.pop() {
            put(&mut self.found.numbers, last, number);
            push(&mut self.found.nodes, last)?;
            if last == node {
                break;
            }
        }
        Ok(())
    }
}
