//! An order of an execution's accesses in which every pair of the axiom External goes forward.
//! Others rest on `order_of` by its clauses `order` and `cyclic`. Inside, the pairs are lanes, a graph near-linear in the events.
//! Source: herding cats (Alglave, Maranget, Tautschnig, TOPLAS 2014), by frontiers of threads and bytes.
#![tactic(auto)]

mod atomic;
mod bytes;
mod doors;
mod event_order;
mod events;
mod external;
mod gates;
mod lanes;
mod lookup;
mod order;

pub use event_order::order_of;

#[cfg(test)]
mod tests;
