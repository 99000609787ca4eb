//! Fences of the intermediate form, placed around the accesses that are not private.
//! Others rest on `place`, by its clauses `first`, `end`, `fences`, `meaning`, `few`, `well` and `selectable`, and on `is_marked`.
//! Sources: Rocha et al., PLDI 2022 (the mapping from x86 to LIMM); the treatment of private accesses is this project's own.
#![tactic(auto)]

mod marked;
mod placing;
#[cfg(test)]
mod tests;

pub use marked::is_marked;
pub use placing::place;
