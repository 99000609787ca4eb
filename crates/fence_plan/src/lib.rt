//! Which fences a block needs between its accesses, and what it is for a run to have them.
//! Others rest on `gap_between`, on the gaps of a block (`gaps` of `specs/Gaps`), and on runs that follow the plan (`FollowsPlan` of `specs/Planned`).
//! Sources: Rocha et al., PLDI 2022 (the three fences of LIMM, and where the mapping from x86 puts them); the plan by gaps is this project's own.
#![tactic(auto)]

mod gap;

pub use gap::{Gap, gap_between};
