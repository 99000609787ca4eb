//! The decoder of x86-64: the instruction that begins given bytes, or exactly why none does.
//! Others rest on `decode_one`, whose answer is exactly `Answers`, and on the law `SpellingsStandAlone`.
//! Source: Intel SDM volume 2, chapter 2 (instruction format) and appendix A (opcode map).
#![tactic(auto)]

mod bytes;
mod decode;
mod front;
mod meaning;
mod numbers;
mod operands;
mod reading;
mod row;
mod rows;

pub use decode::{DecodeFault, decode_one, spellings_stand_alone};
