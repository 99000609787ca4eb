ghost use Rattle.std.specs.Prelude.{◌≡◌, ◌++◌, ℕ, List, OnOk};

use ev_graph::NoMemory;

/// A graph whose nodes are found while it is searched.
pub trait Graph {
    /// What a node weighs.
    ghost weight_of: { Self → ℕ → ℕ };

    /// The nodes that edges lead to from a node.
    ghost successors_of: { Self → ℕ → List ℕ };

    /// What a node weighs.
    fn weight(&self, node: u64) -> u64
        ensures { result ≡ weight_of self.now node };

    /// Puts the successors of a node behind what the list has.
    fn successors(&self, node: u64, into: &mut Vec<u64>) -> Result<(), NoMemory>
        ensures { OnOk result (into.new.items ≡ into.old.items ++ successors_of self.now node) };
}
