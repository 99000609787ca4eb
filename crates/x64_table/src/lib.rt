//! What each x86-64 instruction does, as its row, and the interpreter of rows.
//! Others rest on `row`, which answers exactly what `row_of` of `specs/Rows` says, on the laws of rows, and on `x64_step` of `specs/Machine`, which takes instructions one after another.
//! Source: Intel SDM, volume 2 (the pages of the instructions) and volume 1, chapter 3 (registers and flags).
#![tactic(auto)]

// a part of a row, or the row's answer where it ends at that part
macro_rules! or_return {
    ($part:expr) => {
        match $part {
            Ok(part) => part,
            Err(row) => return row,
        }
    };
}

mod answer;
mod arithmetic;
mod control;
mod laws;
mod moves;
mod products;
mod rows;
mod state;
mod step;
mod values;

pub use answer::{Next, XRow};
pub use ev_graph::{RowItems, Wanted};
pub use laws::{
    rows_are_allowed, rows_are_open, rows_make_slots, rows_run, rows_run_only, rows_want,
    steps_are_open,
};
pub use rows::row;
pub use state::X64State;
pub use x64_syntax::Flow;
