//! Instructions of x86-64 as data: operands, the accesses that each makes, and marks of accesses by address.
//! Others rest on the types, on `slots_of`, which gives exactly `slots`, and on `List`, which contracts see as a list.
//! Source: Intel SDM volume 2, chapters 2 to 5 (instruction format and reference).
#![tactic(auto)]

mod instr;
mod instr_slots;
mod list;
mod operand;
mod placed;
mod slots;

pub use instr::{AluOp, Instr, ShiftOp};
pub use instr_slots::{InstrSlot, InstrSlots, SlotPlace, slots_of};
pub use list::List;
pub use operand::{Cond, Mem, Operand, Reg, Width};
pub use placed::{Flow, Placed};
pub use slots::{Marks, Slot, SlotKind};
