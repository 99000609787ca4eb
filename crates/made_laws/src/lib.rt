//! What holds of the files that `gen_input` makes of a number of rounds: laws alone, without code.
//! Others rest on `made_files_have_no_fault` and `made_files_say_programs`.
//! Source: System V gABI, chapters 4 and 5 (what a file's bytes say).
#![tactic(auto)]

mod laws;

pub use laws::{made_files_have_no_fault, made_files_have_no_file_fault, made_files_say_programs};
