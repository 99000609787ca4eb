//! The recovery of control flow: which code of a program its threads reach, its blocks, return sites and functions, or its first fault.
//! Others rest on `recover`, by its clauses `first` (`Holds`) and `code` (`IsCodeOf`).
//! Source: Intel SDM volume 2 (CALL, JMP, Jcc, RET, UD2); Aho, Lam, Sethi and Ullman, Compilers, 8.4 (basic blocks, leaders).
#![tactic(auto)]

mod addresses;
mod blocks;
mod check;
mod code;
mod find;
mod functions;
mod laws;
mod leaders;
mod recovery;
mod sites;
mod way;

pub use code::{Block, Code};
pub use laws::{
    blocks_have_instructions, code_begins_blocks, no_wrong_jump, runs_are_paths_of_reach,
    threads_find_code, threads_run_blocks, threads_run_by_blocks,
};
pub use recovery::recover;
pub use x64_syntax::{Flow, Placed};

#[cfg(test)]
mod tests;
