//! Executions of threads: their events and relations, what makes them well formed, and the memory that they begin with.
//! Others rest on the types, on `List`, which contracts see as a list, on `well_formed`, and on the members of `StartMemory`.
//! Source: the axiomatic style of memory models (Alglave, Maranget, Tautschnig, TOPLAS 2014), with System V gABI chapter 5 for memory.
#![tactic(auto)]

mod events;
mod execution;
mod finder;
mod form;
mod giving;
mod last_byte;
mod list;
mod no_memory;
mod ranges;
mod rows;
mod start;
mod start_memory;

pub use events::{
    Access, AccessKind, End, EventId, FenceItem, FenceKind, Item, Transfer, TrapKind,
};
pub use execution::{
    EventPair, Execution, FormFault, ReadByte, ReadFrom, Source, Stack, ThreadRun,
};
pub use form::well_formed;
pub use last_byte::final_byte;
pub use list::List;
pub use no_memory::NoMemory;
pub use ranges::overlaps;
pub use rows::{RowItems, Wanted};
pub use start_memory::StartMemory;

#[cfg(test)]
mod tests;
