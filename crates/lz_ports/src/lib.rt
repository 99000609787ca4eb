//! Where files are got and put by name, and where text goes: the program's whole outside.
//! Others rest on `Shelf` and `Sink`, whose faults come only where a count rose, and on `MemShelf` and `MemSink`, which do exactly what their calls' numbers say.
//! Source: this project's own; the adapters `DiskShelf` and `StdSink` stand over the files and the standard output of POSIX.
#![tactic(auto)]

mod calls;
mod disk_shelf;
mod memory_shelf;
mod memory_sink;
mod shelf;
mod sink;
mod std_sink;

pub use disk_shelf::DiskShelf;
pub use memory_shelf::{MemShelf, NamedFile};
pub use memory_sink::MemSink;
pub use shelf::{GetFault, PutFault, Shelf};
pub use sink::{Sink, SinkFault};
pub use std_sink::StdSink;

#[cfg(test)]
mod tests;
