ghost use Rattle.std.specs.Prelude.{OnOk};
ghost use Rattle.graph_reach.specs.Nodes.{Adds};

use crate::{Graph, Nodes};
use ev_graph::NoMemory;

/// Adds the successors of a node. The buffer's elements go, and its memory serves.
pub fn expand<G: Graph>(
    graph: &G,
    node: u64,
    buffer: &mut Vec<u64>,
    nodes: &mut Nodes,
) -> Result<(), NoMemory>
    ensures { OnOk result (Adds nodes.old (G.successors_of graph.now node) nodes.new) }
{
    buffer.clear();
    graph.successors(node, buffer)?;
    nodes.add_all(buffer.as_slice())
}
