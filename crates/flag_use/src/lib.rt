//! The analysis of undefined flags: whether some reached instruction reads a flag that a path to it
//! leaves undefined.
//! Others rest on `check_flags`, by its clause `first` (`Holds`), and on the law `runs_are_paths`.
//! Source: Intel SDM volume 2 ("Flags Affected" of each instruction; appendix B, condition codes).
#![tactic(auto)]

mod check;
mod effects;
mod flag;
mod laws;
mod onward;
mod reading;
mod track;
mod walk;

pub use check::check_flags;
pub use laws::{conditions_are_decided, runs_are_paths};

#[cfg(test)]
mod tests;
