//! Worked litmus shapes: what the memory orders say of small executions that the literature names.
//! Each law is the contract of a function without a body.
//! Sources: Sewell et al., CACM 2010 (x86-TSO); Arm ARM DDI 0487, chapter B2 (Armv8).
#![tactic(auto)]

mod message_passing;
mod store_buffering;

pub use message_passing::{
    arm_allows_message_passing, arm_forbids_message_passing_with_fences,
    message_passing_is_well_formed, tso_forbids_message_passing,
};
pub use store_buffering::{
    arm_forbids_store_buffering_with_fences, tso_allows_store_buffering,
    tso_forbids_store_buffering_with_fences,
};

#[cfg(test)]
mod tests;
