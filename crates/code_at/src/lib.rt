//! The code of a program: the instruction that stands at an address, or why none does.
//! Others rest on `instruction_at`, which tells exactly that by `IsToldAt`, and on the definitions of `specs/Code`.
//! Source: System V gABI, chapter 5 (segments); Intel SDM volume 2 (instructions).
#![tactic(auto)]

mod instruction;
mod window;

pub use instruction::instruction_at;
pub use window::{Window, window_at};

#[cfg(test)]
mod tests;
