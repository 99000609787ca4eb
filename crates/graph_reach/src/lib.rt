//! The nodes that a graph's edges lead to from given starts, and for each node the first of given sources that reaches it.
//! Others rest on the trait `Graph`, on `reach`, on `first_sources` with `Sources::of`, and on the graphs `Rows` and `Backwards`.
//! Source: graph search with a list of nodes that grows while it is read (Moore 1959; Cormen et al., Introduction to Algorithms).
#![tactic(auto)]

mod backwards;
mod expand;
mod first;
mod graph;
mod laws;
mod nodes;
mod reached;
mod rows;

pub use backwards::Backwards;
pub use first::{Sources, first_sources};
pub use graph::Graph;
pub use laws::{over_excludes_within, reached_backwards, reached_by_path};
pub use nodes::Nodes;
pub use reached::reach;
pub use rows::Rows;

#[cfg(test)]
mod tests;
