//! Texts of executions: what a given text says (`read_exec`), and the text that explains an execution (`print_exec`).
//! Others rest on `read_exec`, by `IsText` and `IsFirstFault`, and on `print_exec`, by `explained`.
//! Source: this project's own format, stated in `specs/Lines` and `specs/Texts`; the numbers in it are those of Rust's `{}` and `{:x}`.
#![tactic(auto)]

mod events;
mod exec_file;
mod fault;
mod lines;
mod numbers;
mod parts;
mod print;
mod read;
mod stage;

pub use exec_file::{ExecFile, Given, GivenThread};
pub use fault::{ReadFault, TextFault, TextKind};
pub use print::print_exec;
pub use read::read_exec;

#[cfg(test)]
mod tests;
