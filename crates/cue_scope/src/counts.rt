ghost use Rattle.std.specs.Prelude.{◌≡◌, ◌<◌, ◌+◌, ◌-◌, ◌^◌, ◌++◌, min, ℕ, length, slice_index};
ghost use Rattle.std.specs.Prelude.{IfOk, IfErr};
ghost use Rattle.cue_lattice.specs.Refusal.{memory};
ghost use Rattle.cue_scope.specs.Graph.{IsNodeIn, IsClosed};
ghost use Rattle.cue_scope.specs.Ordering.{graph_of};
ghost use Rattle.cue_scope.specs.Reached.{times_in_list, targets_of};

use crate::graph::targets;
use crate::memory::zeros;
use cue_lattice::Refusal;
use std::alloc::Global;

/// How often each node is in a list or pointed to by these nodes, up to the greatest number.
pub fn counts_of(
    alloc: Global,
    graph: &[Vec<usize>],
    from: &[usize],
    nodes: &[usize],
) -> Result<Vec<usize>, Refusal>
    requires closed { IsClosed (graph_of graph.now) }
    requires inside { (i : ℕ) → IsNodeIn i from.now → i < length graph.now }
    requires nodes { (i : ℕ) → IsNodeIn i nodes.now → i < length graph.now }
    ensures length { IfOk result (λ v. length v.items ≡ length graph.now) }
    ensures counted { IfOk result (λ v. (i : ℕ) → i < length graph.now →
        slice_index v.items i
        ≡ min (times_in_list i (from.now ++ targets_of (graph_of graph.now) nodes.now)) (2 ^ 64 - 1)) }
    ensures memory { IfErr result (λ r. r ≡ memory) }
{
    let mut counts = zeros(alloc, graph.len())?;
    count(&mut counts, from);
    for node in nodes {
        count(&mut counts, targets(graph, *node));
    }
    Ok(counts)
}

/// Counts each node of a list once more.
fn count(counts: &mut Vec<usize>, nodes: &[usize])
    requires { (i : ℕ) → IsNodeIn i nodes.now → i < length counts.old.items }
    ensures length { length counts.new.items ≡ length counts.old.items }
    ensures counted { (i : ℕ) → i < length counts.old.items →
        slice_index counts.new.items i ≡ min (slice_index counts.old.items i + times_in_list i nodes.now)
        (2 ^ 64 - 1) }
{
    for node in nodes {
        counts[*node] = counts[*node].saturating_add(1);
    }
}
