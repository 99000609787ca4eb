//! Merges the fences of a block: between its accesses stand exactly the planned ones.
//! Others rest on `merge`, by its clauses `first`, `end`, `others`, `planned`, `meaning`, `few`, `well`, `selectable` and `follows`.
//! Sources: Rocha et al., PLDI 2022 (which fences may be merged); the plan by gaps is this project's own.
#![tactic(auto)]

mod merging;
mod role;
#[cfg(test)]
mod tests;

pub use merging::merge;
