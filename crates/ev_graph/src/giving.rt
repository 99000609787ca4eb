ghost use Rattle.std.specs.Prelude.{◌≡◌, ◌+◌, ◌<◌, ◌^◌, ℕ, IfSome, IfNone, Option};
ghost use Rattle.ev_graph.specs.declared.execution.Source.TheVariants as source_of;
ghost use Rattle.ev_graph.specs.Start.{start_at};
ghost use Rattle.ev_graph.specs.FinalByte.{GivesByte};
ghost use Rattle.ev_graph.specs.FinderMark.{IsMark};
ghost use Rattle.ev_graph.specs.Giving.{IsGiving, fault_of};

use crate::finder::Finder;
use crate::ranges::{byte_at, byte_written};
use crate::start::first_byte;
use crate::{Access, EventId, Execution, FormFault, ReadByte, Source, StartMemory, ThreadRun};

/// What a source gives a byte of a read.
#[derive(Clone, Copy)]
pub enum Giving {
    SameByte,
    OtherByte,
    NoByte,
}

/// The byte that the write with this id gives the address, where it covers it.
pub fn byte_given(
    threads: &[ThreadRun],
    id: EventId,
    address: u64,
    finder: &mut Finder,
) -> Option<u8>
    requires { IsMark threads.now finder.old.thread finder.old.place finder.old.number }
    ensures mark { IsMark threads.now finder.new.thread finder.new.place finder.new.number }
    ensures some { IfSome result (λ byte. GivesByte threads.now id address byte) }
    ensures none { IfNone result ((byte : ℕ) → GivesByte threads.now id address byte → ⊥) }
{
    byte_written(&finder.find(threads, id)?, address)
}

/// What the start gives byte k of the read.
fn giving_of_start<S: StartMemory>(x: &Execution, start: &S, read: &Access, k: u8) -> Giving
    requires { read.now.address + k < 2 ^ 64 }
    ensures { IsGiving (start_at (S.cells start.now) x.now.stacks) x.now.threads read.now k source_of.Start result }
{
    let k = u64::from(k);
    if first_byte(x.stacks.as_slice(), start, read.address + k) == Some(byte_at(read.value, k)) {
        Giving::SameByte
    } else {
        Giving::OtherByte
    }
}

/// What the write with this id gives byte k of the read.
fn giving_of_write(
    threads: &[ThreadRun],
    id: EventId,
    read: &Access,
    k: u8,
    finder: &mut Finder,
) -> Giving
    requires mark { IsMark threads.now finder.old.thread finder.old.place finder.old.number }
    requires within { read.now.address + k < 2 ^ 64 }
    ensures mark { IsMark threads.now finder.new.thread finder.new.place finder.new.number }
    ensures giving { (start : ℕ → Option ℕ) → IsGiving start threads.now read.now k (source_of.From id) result }
{
    let k = u64::from(k);
    match byte_given(threads, id, read.address + k, finder) {
        None => Giving::NoByte,
        Some(byte) if byte == byte_at(read.value, k) => Giving::SameByte,
        Some(_) => Giving::OtherByte,
    }
}

/// What a source gives byte k of the read.
pub fn giving_of<S: StartMemory>(
    x: &Execution,
    start: &S,
    read: &Access,
    k: u8,
    source: Source,
    finder: &mut Finder,
) -> Giving
    requires mark { IsMark x.now.threads finder.old.thread finder.old.place finder.old.number }
    requires within { read.now.address + k < 2 ^ 64 }
    ensures mark { IsMark x.now.threads finder.new.thread finder.new.place finder.new.number }
    ensures giving { IsGiving (start_at (S.cells start.now) x.now.stacks) x.now.threads read.now k source result }
{
    match source {
        Source::Start => giving_of_start(x, start, read, k),
        Source::From(id) => giving_of_write(x.threads.as_slice(), id, read, k, finder),
    }
}

impl Giving {
    /// The fault of byte k of a read, by what its source gives.
    pub fn fault(self, read: EventId, byte: u8) -> Option<FormFault>
        ensures { result ≡ fault_of self read byte }
    {
        match self {
            Giving::SameByte => None,
            Giving::OtherByte => Some(FormFault::BadValue(ReadByte { read, byte })),
            Giving::NoByte => Some(FormFault::BadSource(ReadByte { read, byte })),
        }
    }
}
