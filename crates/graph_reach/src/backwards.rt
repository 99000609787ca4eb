ghost use Rattle.std.specs.Prelude.{◌≡◌, ◌<◌, IfOk, OnOk, length};
ghost use Rattle.ev_graph.specs.Places.{IsDistinct};
ghost use Rattle.graph_reach.specs.Backwards.{IsTurned, lists_of, row_beside};
ghost use Rattle.graph_reach.specs.Turning.{AreEmpty, AddsAt, AddsInto};

use crate::{Graph, Nodes};
use ev_graph::NoMemory;
use std::alloc::Global;
use std::marker::Model;

/// The edges between given nodes, turned round.
///
/// Contracts see each node with the nodes from which edges lead to it.
#[derive(Drop)]
pub struct Backwards<'a> {
    nodes: &'a Nodes,
    from: Vec<Vec<u64>>,
}

impl<'a> Model for Backwards<'a> {
    ghost use Rattle.std.specs.Prelude.{◌≡◌, ℕ, List as Sequence, length};
    ghost use Rattle.std.specs.List.{zip};
    ghost use Rattle.graph_reach.specs.Backwards.{lists_of};

    ghost Value = { Sequence (ℕ × Sequence ℕ) };

    ghost view = { λ back. zip back.nodes.now (lists_of back.from.items) };

    ghost invariant = { λ back. length back.nodes.now ≡ length back.from.items };
}

/// So many empty lists.
fn empty_lists(alloc: Global, count: usize) -> Result<Vec<Vec<u64>>, NoMemory>
    ensures { IfOk result (λ lists. AreEmpty count (lists_of lists.items)) }
{
    let mut lists = Vec::with_capacity(alloc, count)?;
    for _ in 0..count {
        lists.push(Vec::new(alloc))?;
    }
    Ok(lists)
}

/// Puts a node behind the list at a place.
fn put_at(lists: &mut Vec<Vec<u64>>, place: usize, node: u64) -> Result<(), NoMemory>
    requires { place < length lists.old.items }
    ensures { OnOk result (AddsAt (lists_of lists.old.items) place node (lists_of lists.new.items)) }
{
    lists[place].push(node)?;
    Ok(())
}

/// Puts a node behind the lists of its successors, as far as these are among the nodes.
fn put_into(
    nodes: &Nodes,
    node: u64,
    successors: &[u64],
    lists: &mut Vec<Vec<u64>>,
) -> Result<(), NoMemory>
    requires long { length nodes.now ≡ length lists.old.items }
    requires once { IsDistinct nodes.now }
    ensures { OnOk result (AddsInto nodes.now node successors.now (lists_of lists.old.items) (lists_of lists.new.items)) }
{
    for other in successors {
        if let Some(place) = nodes.place_of(*other) {
            put_at(lists, place, node)?;
        }
    }
    Ok(())
}

impl<'a> Backwards<'a> {
    /// The graph's edges between the nodes, turned round, in time and memory linear in the nodes and their edges.
    pub fn of<G: Graph>(
        alloc: Global,
        graph: &G,
        nodes: &'a Nodes,
    ) -> Result<Backwards<'a>, NoMemory>
        ensures { IfOk result (λ back. IsTurned (G.successors_of graph.now) nodes.now (row_beside back)) }
    {
        let mut from = empty_lists(alloc, nodes.len())?;
        let mut buffer = Vec::new(alloc);
        for node in nodes.as_slice() {
            buffer.clear();
            graph.successors(*node, &mut buffer)?;
            put_into(nodes, *node, buffer.as_slice(), &mut from)?;
        }
        Ok(Backwards { nodes, from })
    }
}

impl<'a> Graph for Backwards<'a> {
    ghost use Rattle.graph_reach.specs.Backwards.{row_beside, one_each};

    ghost weight_of = { one_each };

    ghost successors_of = { row_beside };

    fn weight(&self, _node: u64) -> u64 {
        1
    }

    fn successors(&self, node: u64, into: &mut Vec<u64>) -> Result<(), NoMemory> {
        if let Some(place) = self.nodes.place_of(node) {
            into.extend_from_slice(self.from[place].as_slice())?;
        }
        Ok(())
    }
}
