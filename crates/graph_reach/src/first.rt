ghost use Rattle.std.specs.Prelude.{◌≡◌, ◌+◌, ◌<◌, ◌≤◌, ℕ, IfOk, OnOk, length};
ghost use Rattle.graph_reach.specs.Reach.{IsFirst, From};
ghost use Rattle.graph_reach.specs.Sources.{source_of};
ghost use Rattle.graph_reach.specs.Searching.{Spreads};

use crate::expand::expand;
use crate::{Graph, Nodes};
use ev_graph::NoMemory;
use std::alloc::Global;
use std::marker::Model;

/// For each node that is reached from some source, the first source that reaches it.
///
/// Contracts see the pairs of a node and its source, in the order in which the nodes were found.
#[derive(Drop)]
pub struct Sources {
    nodes: Nodes,
    first: Vec<u64>,
}

impl Model for Sources {
    ghost use Rattle.std.specs.Prelude.{◌≡◌, ℕ, List as Sequence, length};
    ghost use Rattle.std.specs.List.{zip};

    ghost Value = { Sequence (ℕ × ℕ) };

    ghost view = { λ sources. zip sources.nodes sources.first.items };

    ghost invariant = { λ sources. length sources.nodes ≡ length sources.first.items };
}

impl Sources {
    /// The first source that reaches the node, where one does.
    pub fn of(&self, node: u64) -> Option<u64>
        ensures { result ≡ source_of self.now node }
    {
        let place = self.nodes.place_of(node)?;
        Some(self.first[place])
    }
}

/// Adds all that the nodes from a place on lead to, where the nodes before it lead to nothing more.
fn spread<G: Graph>(
    graph: &G,
    from: usize,
    buffer: &mut Vec<u64>,
    nodes: &mut Nodes,
) -> Result<(), NoMemory>
    ensures { OnOk result (Spreads (G.successors_of graph.now) nodes.old from (length nodes.new) nodes.new) }
{
    let mut place = from;
    while place < nodes.len() {
        expand(graph, nodes.at(place), buffer, nodes)?;
        place += 1;
    }
    Ok(())
}

/// For each node, the first of the sources that reaches it.
///
/// A node's successors are asked for once, so this takes time and memory linear in the nodes that are reached and their edges.
pub fn first_sources<G: Graph>(
    alloc: Global,
    graph: &G,
    sources: &[u64],
) -> Result<Sources, NoMemory>
    ensures { IfOk result (λ found. (a : ℕ) → IsFirst (From (G.successors_of graph.now) a) sources.now (source_of found a)) }
{
    let mut nodes = Nodes::new(alloc);
    let mut first = Vec::new(alloc);
    let mut buffer = Vec::new(alloc);
    for source in sources {
        let from = nodes.len();
        nodes.add(*source)?;
        spread(graph, from, &mut buffer, &mut nodes)?;
        first.resize(nodes.len(), *source)?;
    }
    Ok(Sources { nodes, first })
}
