//! Blocks of A64 words over registers of some kind, between selection, the allocation of registers and the layout.
//! Others rest on the types, on the meaning of a block (`a64_block` of `specs/Blocks`), on what each pass asks of the one before it (`IsAllocatable` and `IsLayable` of `specs/Conditions`), and on the breaks that are traps (`break_of`).
//! Source: the words are those of the Arm Architecture Reference Manual, chapter C6; blocks over unnamed registers are as in Appel, Modern Compiler Implementation, chapters 9 to 11.
#![tactic(auto)]

mod block;
mod breaks;

pub use block::{ABlock, AEnd};
pub use breaks::break_of;
