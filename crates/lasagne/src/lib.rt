//! The translator's top call.
//! Others rest on `run`, whose clauses say what each status leaves and what an image is to its input.
//! Source: POSIX.1-2017, Utility Conventions, for words and lines; what carrying means has its sources in `carry_spec`.
#![tactic(auto)]

mod command;
mod plan;
mod rounds;
#[cfg(test)]
mod tests;
mod texts;
mod word;

pub use command::{Status, run};
pub use word::Word;
