//! An order of numbers in which every edge between them goes forward, or a cycle of the edges.
//! Others rest on `order_or_cycle` by its clauses `order`, `cycle`, `acyclic` and `cyclic`, and on the law `order_excludes_cycle`.
//! Source: topological sorting (Kahn, CACM 1962), by a walk in depth against the edges (Tarjan, SIAM J. Comput. 1972).
#![tactic(auto)]

mod edge;
mod laws;
mod links;
mod lookup;
mod order;
mod walk;

pub use edge::{Edge, TopoAnswer};
pub use laws::order_excludes_cycle;
pub use order::order_or_cycle;

#[cfg(test)]
mod tests;
