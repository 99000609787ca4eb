//! Executions of an image from their texts: each thread walked on the values that it is given, in the layout that is given.
//! Others rest on `replay`, by `IsReplay` and `IsReplayFault`.
//! Source: this project's own rules of matching; what words do is in Arm ARM (DDI 0487), chapter C6.
#![tactic(auto)]

mod execution;
mod fault;
mod layout;
mod made;
mod memory;
mod relations;
mod thread;
mod values;
mod walk;

pub use execution::replay;
pub use fault::{ReplayFault, ReplayKind, ReplayPlace};

#[cfg(test)]
mod tests;
