//! The arithmetic of x86-64's general instructions at 8, 16, 32 and 64 bits: values, flags and conditions.
//! Others rest on the one equation of each operation of `Alu` and of `cond`, and on the table of effects on flags in specs/Effects.
//! Source: Intel SDM volume 1, 3.4.3 (EFLAGS), and volume 2, the pages of the instructions and appendix B (condition codes).
#![tactic(auto)]

mod conditions;
mod effects;
mod flags;
mod operations;
mod products;
mod quotients;
mod shifts;
mod sums;
#[cfg(test)]
mod tests;
mod turns;
mod words;

pub use conditions::{comparisons, cond};
pub use effects::{shift_effects_by_cl, turn_effects_by_cl};
pub use flags::{Flags, Outcome};
pub use operations::{DivFault, Logic, Product, Quotient, Rotate, Shift};
pub use products::products_over;
pub use words::Alu;
