//! The intermediate form: blocks of steps over temporaries, with three fences of their own, and what they do.
//! Others rest on the types, on the meaning of a block (`ir_block` of `specs/Blocks`), on the condition that a block is well made (`IsWellMade` of `specs/Conditions`), and on the law `blocks_are_open`.
//! Sources: Rocha et al., PLDI 2022 (LIMM: the three fences and their orders); the steps and blocks are this project's own.
#![tactic(auto)]

mod block;
mod laws;
mod step;

pub use block::{IrBlock, IrEnd};
pub use step::{IrFence, IrOp, IrStep, RmwOp, Temp};
