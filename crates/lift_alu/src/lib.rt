//! The lifting of single x86 instructions to steps of the intermediate form.
//! Others rest on `lift_instr`, by its clauses `meaning`, `few`, `selectable` and `own`, and on `instr_end`, which says how a block ends.
//! Source: Intel SDM, volume 2, the pages of the instructions; flags by comparisons of words as in Hacker's Delight, chapter 2.
#![tactic(auto)]

mod access;
mod builder;
mod calls;
mod change;
mod end;
mod flags;
mod formula;
mod lift;
#[cfg(test)]
mod lock_tests;
mod locks;
mod moves;
mod operands;
#[cfg(test)]
mod product_tests;
mod products;
#[cfg(test)]
mod quotient_tests;
mod quotients;
#[cfg(test)]
mod shift_tests;
mod shifts;
mod small_steps;
mod stack;
#[cfg(test)]
mod tests;
mod turns;
mod unary;

pub use end::instr_end;
pub use lift::lift_instr;
pub use small_steps::SmallSteps;
