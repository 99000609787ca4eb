//! The two maps that carry a consistent execution from Armv8 by the intermediate form to x86-TSO.
//! Others rest on the contracts of `arm_to_limm` and `limm_to_tso`, and on the laws, above all `arm_is_tso`.
//! Sources: Rocha et al., PLDI 2022 (the mapping by LIMM); the axioms and the treatment of private accesses are this project's own.
#![tactic(auto)]

mod from_arm;
mod laws;
mod rename;
mod to_x86;

pub use from_arm::arm_to_limm;
pub use laws::{
    arm_is_limm, arm_is_tso, cycles_without_private, fewer_mfences, limm_is_tso,
    private_is_needless, well_formed_has_sources,
};
pub use to_x86::limm_to_tso;

#[cfg(test)]
mod tests;
