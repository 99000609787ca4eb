//! The translation of a file: the image that is made of it carries it.
//! Others rest on `translate`, by its clauses, one for each part of what it gives.
//! Sources: Leroy, CACM 52(7), 2009 (simulation of whole programs by composed passes); Rocha et al., PLDI 2022 (fences).
#![tactic(auto)]

mod block;
mod counted;
mod plan;
mod translation;

pub use block::pass_blocks;
pub use carry_spec::{BlockPlan, Summary};
pub use fence_plan::Gap;
pub use translation::{Translated, translate};

#[cfg(test)]
mod tests;
