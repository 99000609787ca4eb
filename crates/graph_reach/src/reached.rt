ghost use Rattle.std.specs.Prelude.{◌≤◌, ◌↔◌, IfOk, IfSome, IsNone, sum_by};
ghost use Rattle.graph_reach.specs.Reach.{IsReachedSet, IsOver};

use crate::expand::expand;
use crate::{Graph, Nodes};
use ev_graph::NoMemory;
use std::alloc::Global;

/// The nodes that are reached from the starts, unless they weigh more than the limit together.
///
/// A node's successors are asked for once, and only if the nodes found before it and the node itself are within the limit.
/// Takes time and memory linear in these nodes and their edges.
pub fn reach<G: Graph>(
    alloc: Global,
    graph: &G,
    starts: &[u64],
    limit: u64,
) -> Result<Option<Nodes>, NoMemory>
    ensures whole { IfOk result (λ found. IfSome found (IsReachedSet (G.successors_of graph.now) starts.now)) }
    ensures within { IfOk result (λ found. IfSome found (λ nodes. sum_by (G.weight_of graph.now) nodes ≤ limit)) }
    ensures over { IfOk result (λ found. IsNone found ↔ IsOver (G.successors_of graph.now) starts.now (G.weight_of graph.now) limit) }
{
    let mut nodes = Nodes::new(alloc);
    nodes.add_all(starts)?;
    let mut buffer = Vec::new(alloc);
    let mut left = limit;
    let mut place = 0;
    while place < nodes.len() {
        let node = nodes.at(place);
        let weight = graph.weight(node);
        if left < weight {
            return Ok(None);
        }
        left -= weight;
        expand(graph, node, &mut buffer, &mut nodes)?;
        place += 1;
    }
    Ok(Some(nodes))
}
