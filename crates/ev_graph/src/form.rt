ghost use Rattle.std.specs.Prelude.{◌≡◌, ◌≤◌, ◌<◌, ◌↔◌, ◌^◌, ℕ, Option, Some, None, List as Sequence, length, map, slice_get, IsTrue, IsOk};
ghost use Rattle.std.specs.List.{flat_map, range_with_len};
ghost use Rattle.std.specs.Result.{result_err};
ghost use Rattle.ev_graph.specs.declared.events.Access.{Access as AnyAccess};
ghost use Rattle.ev_graph.specs.declared.events.AccessKind.TheVariants as kind_of;
ghost use Rattle.ev_graph.specs.declared.execution.FormFault.TheVariants as form_fault;
ghost use Rattle.ev_graph.specs.Memory.{Cell};
ghost use Rattle.ev_graph.specs.Places.{StandsIn};
ghost use Rattle.ev_graph.specs.Events.{IsAccessOf};
ghost use Rattle.ev_graph.specs.WellFormed.{WellFormed, IsShaped, EachAccess, IsAddressable, write_ids};
ghost use Rattle.ev_graph.specs.Faults.{IsAbsent, IsFirstPresent, IsFirstFault, byte_faults, entry_faults};
ghost use Rattle.ev_graph.specs.Giving.{item_writes, thread_writes};
ghost use Rattle.ev_graph.specs.FinderMark.{IsMark};

use crate::finder::Finder;
use crate::giving::giving_of;
use crate::{
    Access, AccessKind, EventId, Execution, FormFault, Item, ReadFrom, StartMemory, ThreadRun,
};

/// Whether the id is one of the list.
fn contains(ids: &[EventId], id: EventId) -> bool
    ensures { IsTrue result ↔ StandsIn ids.now id }
{
    ids.iter().any(|other| *other == id)
}

/// The first fault of byte k of a read: its source, and then its value.
fn byte_fault<S: StartMemory>(
    x: &Execution,
    start: &S,
    entry: &ReadFrom,
    read: &Access,
    k: usize,
    sources: &mut Finder,
) -> Option<FormFault>
    requires shaped { IsShaped x.now }
    requires addressable { EachAccess IsAddressable x.now.threads }
    requires listed { StandsIn x.now.rf entry.now }
    requires read { IsAccessOf x.now.threads entry.now.read read.now }
    requires within { k < length entry.now.bytes }
    requires mark { IsMark x.now.threads sources.old.thread sources.old.place sources.old.number }
    ensures mark { IsMark x.now.threads sources.new.thread sources.new.place sources.new.number }
    ensures first { IsFirstPresent (IsAbsent (S.cells start.now) x.now) (byte_faults entry.now.read k) result }
{
    let source = entry.bytes.as_slice()[k];
    let byte = k as u8;
    giving_of(x, start, read, byte, source, sources).fault(entry.read, byte)
}

/// The first fault of one entry of rf, byte by byte.
fn entry_fault<S: StartMemory>(
    x: &Execution,
    start: &S,
    entry: &ReadFrom,
    reads: &mut Finder,
    sources: &mut Finder,
) -> Option<FormFault>
    requires shaped { IsShaped x.now }
    requires addressable { EachAccess IsAddressable x.now.threads }
    requires listed { StandsIn x.now.rf entry.now }
    requires reads { IsMark x.now.threads reads.old.thread reads.old.place reads.old.number }
    requires sources { IsMark x.now.threads sources.old.thread sources.old.place sources.old.number }
    ensures reads { IsMark x.now.threads reads.new.thread reads.new.place reads.new.number }
    ensures sources { IsMark x.now.threads sources.new.thread sources.new.place sources.new.number }
    ensures first { IsFirstPresent (IsAbsent (S.cells start.now) x.now) (entry_faults entry.now) result }
{
    let Some(read) = reads.find(x.threads.as_slice(), entry.read) else {
        return None;
    };
    for k in 0..entry.bytes.as_slice().len() {
        if let Some(fault) = byte_fault(x, start, entry, &read, k, sources) {
            return Some(fault);
        }
    }
    None
}

/// The first fault of the entries of rf.
fn read_fault<S: StartMemory>(x: &Execution, start: &S) -> Option<FormFault>
    requires shaped { IsShaped x.now }
    requires addressable { EachAccess IsAddressable x.now.threads }
    ensures { IsFirstPresent (IsAbsent (S.cells start.now) x.now) (flat_map entry_faults x.now.rf) result }
{
    let mut reads = Finder::new();
    let mut sources = Finder::new();
    for entry in x.rf.as_slice() {
        if let Some(fault) = entry_fault(x, start, entry, &mut reads, &mut sources) {
            return Some(fault);
        }
    }
    None
}

/// Whether the id is that of a write.
fn is_write(threads: &[ThreadRun], id: EventId, finder: &mut Finder) -> bool
    requires { IsMark threads.now finder.old.thread finder.old.place finder.old.number }
    ensures mark { IsMark threads.now finder.new.thread finder.new.place finder.new.number }
    ensures write { IsTrue result ↔ ((a : AnyAccess) × IsAccessOf threads.now id a × (a.kind ≡ kind_of.Write)) }
{
    match finder.find(threads, id) {
        Some(access) => access.kind == AccessKind::Write,
        None => false,
    }
}

/// Whether the id is that of a write, and not among those before it.
fn is_new_write(threads: &[ThreadRun], before: &[EventId], id: EventId, finder: &mut Finder) -> bool
    requires { IsMark threads.now finder.old.thread finder.old.place finder.old.number }
    ensures mark { IsMark threads.now finder.new.thread finder.new.place finder.new.number }
    ensures new { IsTrue result ↔ (((a : AnyAccess) × IsAccessOf threads.now id a × (a.kind ≡ kind_of.Write)) × (StandsIn before.now id → ⊥)) }
{
    is_write(threads, id, finder) && !contains(before, id)
}

/// The first entry of co that is no write, or that an earlier entry repeats.
fn co_fault(x: &Execution) -> Option<FormFault>
    requires shaped { IsShaped x.now }
    requires short { length x.now.co ≤ 2 ^ 32 }
    ensures { (cells : ℕ → Option Cell)
        → IsFirstPresent (IsAbsent cells x.now) (map form_fault.CoEntry (range_with_len 0 (length x.now.co))) result }
{
    let co = x.co.as_slice();
    let mut finder = Finder::new();
    for (i, id) in co.iter().enumerate() {
        if !is_new_write(x.threads.as_slice(), &co[..i], *id, &mut finder) {
            return Some(FormFault::CoEntry(i as u32));
        }
    }
    None
}

/// The item's id, where it is a write that co does not have.
fn missing_item(one: &Item, co: &[EventId]) -> Option<EventId>
    ensures { IsFirstPresent (StandsIn co.now) (item_writes one.now) result }
{
    match one {
        Item::Access(access) if access.kind == AccessKind::Write && !contains(co, access.id) => {
            Some(access.id)
        }
        _ => None,
    }
}

/// The first of a thread's writes that co does not have.
fn missing_in(items: &[Item], co: &[EventId]) -> Option<EventId>
    ensures { IsFirstPresent (StandsIn co.now) (thread_writes items.now) result }
{
    for one in items {
        if let Some(id) = missing_item(one, co) {
            return Some(id);
        }
    }
    None
}

/// The least write that co does not have.
fn missing_write(threads: &[ThreadRun], co: &[EventId]) -> Option<EventId>
    ensures { IsFirstPresent (StandsIn co.now) (write_ids threads.now) result }
{
    for thread in threads {
        if let Some(id) = missing_in(thread.items.as_slice(), co) {
            return Some(id);
        }
    }
    None
}

/// The first fault: of the reads, of the entries of co, and of the writes that co does not have.
fn first_fault<S: StartMemory>(x: &Execution, start: &S) -> Option<FormFault>
    requires shaped { IsShaped x.now }
    requires addressable { EachAccess IsAddressable x.now.threads }
    requires short { length x.now.co ≤ 2 ^ 32 }
    ensures { IsFirstFault (S.cells start.now) x.now result }
{
    if let Some(fault) = read_fault(x, start) {
        return Some(fault);
    }
    if let Some(fault) = co_fault(x) {
        return Some(fault);
    }
    let missing = missing_write(x.threads.as_slice(), x.co.as_slice())?;
    Some(FormFault::CoMissing(missing))
}

/// Whether each byte that is read has a source with its value, and co is an order of all writes; else
/// the first fault.
///
/// Reads come first, by thread, number and byte, and at each byte the source before the value. Then
/// come the entries of co, and then the writes that co does not have. It takes no memory: for each
/// read it walks its thread's items on, and those of its source, and for each entry of co it looks
/// through those before it.
///
/// The ids, the entries of rf and the locked pairs have to be what the threads' items say.
pub fn well_formed<S: StartMemory>(x: &Execution, start: &S) -> Result<(), FormFault>
    requires shaped { IsShaped x.now }
    requires addressable { EachAccess IsAddressable x.now.threads }
    requires short { length x.now.co ≤ 2 ^ 32 }
    ensures first { IsFirstFault (S.cells start.now) x.now (result_err result) }
    ensures ok { IsOk result ↔ WellFormed (S.cells start.now) x.now }
{
    match first_fault(x, start) {
        Some(fault) => Err(fault),
        None => Ok(()),
    }
}
