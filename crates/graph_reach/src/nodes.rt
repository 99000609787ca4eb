ghost use Rattle.std.specs.Prelude.{◌≡◌, ◌+◌, ◌<◌, ◌^◌, ◌↔◌, ℕ, [], Some, IsTrue, IfSome, IfNone, OnOk, length, slice_get};
ghost use Rattle.ev_graph.specs.Places.{StandsIn, IsDistinct};
ghost use Rattle.graph_reach.specs.Nodes.{Adds, AddsOne};

use ev_graph::NoMemory;
use indexmap::IndexSet;
use std::alloc::Global;
use std::marker::Model;

/// Nodes in the order in which they were found, each once. Contracts see the list of them.
#[derive(Drop)]
pub struct Nodes {
    set: IndexSet<u64>,
}

impl Model for Nodes {
    ghost use Rattle.std.specs.Prelude.{ℕ, List as Sequence};

    ghost Value = { Sequence ℕ };

    ghost view = { λ nodes. nodes.set.keys };
}

impl Nodes {
    /// No nodes.
    pub fn new(alloc: Global) -> Nodes
        ensures { result ≡ [] }
    {
        Nodes {
            set: IndexSet::new(alloc),
        }
    }

    /// Puts a node last, unless it is there.
    pub fn add(&mut self, node: u64) -> Result<(), NoMemory>
        ensures { OnOk result (AddsOne self.old node self.new) }
    {
        self.set.insert(node)?;
        Ok(())
    }

    /// Puts last those of the nodes that are not there.
    pub fn add_all(&mut self, more: &[u64]) -> Result<(), NoMemory>
        ensures { OnOk result (Adds self.old more.now self.new) }
    {
        for node in more {
            self.add(*node)?;
        }
        Ok(())
    }

    /// How many nodes there are.
    pub fn len(&self) -> usize
        ensures len { result ≡ length self.now }
        ensures small { result < 2 ^ 63 }
        ensures once { IsDistinct self.now }
    {
        self.set.len()
    }

    /// Whether there are no nodes.
    pub fn is_empty(&self) -> bool
        ensures { IsTrue result ↔ (length self.now ≡ 0) }
    {
        self.len() == 0
    }

    /// The node that was found as number `place`, from 0 on.
    pub fn at(&self, place: usize) -> u64
        requires { place < length self.now }
        ensures { slice_get self.now place ≡ Some result }
    {
        self.as_slice()[place]
    }

    /// Whether the node is there.
    pub fn contains(&self, node: u64) -> bool
        ensures { IsTrue result ↔ StandsIn self.now node }
    {
        self.set.contains(&node)
    }

    /// The place of a node that is there.
    pub fn place_of(&self, node: u64) -> Option<usize>
        ensures some { IfSome result (λ place. slice_get self.now place ≡ Some node) }
        ensures first { IfSome result (λ place. (i : ℕ) → i < place → slice_get self.now i ≡ Some node → ⊥) }
        ensures none { IfNone result (StandsIn self.now node → ⊥) }
    {
        self.set.get_index_of(&node)
    }

    /// The nodes, in the order in which they were found.
    pub fn as_slice(&self) -> &[u64]
        ensures nodes { result.now ≡ self.now }
        ensures once { IsDistinct self.now }
    {
        self.set.as_slice()
    }
}
