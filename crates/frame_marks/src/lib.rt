//! Private slots: the accesses to a function's own stack frame, of functions whose frame does not escape.
//! Others rest on `marks`, by its clause (`ArePrivate`).
//! Source: System V AMD64 psABI, 3.2.2 (the stack frame); the rule which frames escape is this project's own.
#![tactic(auto)]

mod bodies;
mod frames;
mod marking;
mod operands;
mod prologue;
mod uses;
mod witnesses;

pub use marking::marks;

#[cfg(test)]
mod tests;
