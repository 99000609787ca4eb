ghost use Rattle.std.specs.Prelude.{◌≡◌, ◌≢◌, ◌↔◌, ◌⊎◌, ◌<◌, ◌≤◌, ◌+◌, ◌^◌, ℕ, List, Some, IsTrue, true, IfOk, OnOk, length, slice_get};
ghost use Rattle.ev_graph.specs.declared.events.EventId.{EventId as AnyId};
ghost use Rattle.ev_graph.specs.declared.execution.Source.{Source as AnySource};
ghost use Rattle.ev_graph.specs.Places.{IsDistinct};
ghost use Rattle.axiom_check.specs.Gains.{Gains, Below};
ghost use Rattle.axiom_check.specs.Numbers.{AreNumbered};
ghost use Rattle.axiom_check.specs.Bytes.{key, ArePlaces, IsFrom, IsKnown, IsSourceTo, IsSourceAt, IsSourceOf, IsTargetOf, IsCoSource, IsCoTarget, IsReadSource, IsEntrySource, IsByteEdge, IsEntryEdge, AreSourcesKnown};

use crate::events::{Events, Numbered, push_edge};
use crate::lanes::Slot;
use crate::lookup::at;
use ev_graph::{EventId, NoMemory, ReadFrom, Source};
use std::alloc::Global;
use topo::Edge;

/// Whose writes come after an event: those of all threads, with its own or without.
#[derive(Clone, Copy)]
pub struct Writers {
    pub threads: u32,
    pub within: bool,
}

/// The key of a place in the lane of this byte and this number below 32.
pub fn key_of(byte: u128, tag: u32, place: u32) -> u128
    requires byte { byte < 2 ^ 90 }
    requires tag { tag < 32 }
    ensures { result ≡ key byte tag place }
{
    (byte * 32 + u128::from(tag)) * 4294967296 + u128::from(place)
}

fn push_source_to(
    sources: &mut Vec<Slot>,
    within: bool,
    found: &Numbered,
    byte: u128,
    place: u32,
    thread: u32,
) -> Result<(), NoMemory>
    requires byte { byte < 2 ^ 90 }
    requires few { thread < 32 }
    ensures { OnOk result (Gains (IsSourceTo within found.now.access.id.thread found.now.number byte place thread) sources.old.items sources.new.items) }
{
    if !within && thread == found.access.id.thread {
        return Ok(());
    }
    sources.push(Slot {
        key: key_of(byte, thread, place),
        event: found.number,
    })?;
    Ok(())
}

fn push_source_at(
    sources: &mut Vec<Slot>,
    writers: Writers,
    found: &Numbered,
    byte: u128,
    place: u32,
) -> Result<(), NoMemory>
    requires byte { byte < 2 ^ 90 }
    requires few { writers.threads ≤ 32 }
    ensures { OnOk result (Gains (IsSourceAt writers.within writers.threads found.now.access.id.thread found.now.number byte place) sources.old.items sources.new.items) }
{
    for thread in 0..writers.threads {
        push_source_to(sources, writers.within, found, byte, place, thread)?;
    }
    Ok(())
}

fn push_source(
    sources: &mut Vec<Slot>,
    writers: Writers,
    found: &Numbered,
    place: u32,
) -> Result<(), NoMemory>
    requires { writers.threads ≤ 32 }
    ensures { OnOk result (Gains (IsSourceOf writers.within writers.threads place found.now.number found.now.access) sources.old.items sources.new.items) }
{
    for k in 0..found.access.size {
        let byte = u128::from(found.access.address) + u128::from(k);
        push_source_at(sources, writers, found, byte, place)?;
    }
    Ok(())
}

fn push_target(targets: &mut Vec<Slot>, found: &Numbered, place: u32) -> Result<(), NoMemory>
    requires { found.now.access.id.thread < 32 }
    ensures { OnOk result (Gains (IsTargetOf place found.now.number found.now.access) targets.old.items targets.new.items) }
{
    for k in 0..found.access.size {
        let byte = u128::from(found.access.address) + u128::from(k);
        targets.push(Slot {
            key: key_of(byte, found.access.id.thread, place),
            event: found.number,
        })?;
    }
    Ok(())
}

/// The places after the writes in co, by their numbers.
pub fn places_of(alloc: Global, events: &Events, co: &[EventId]) -> Result<Vec<u32>, NoMemory>
    requires numbered { AreNumbered events.now.accesses.items events.now.firsts.items }
    requires distinct { IsDistinct co.now }
    ensures { IfOk result (λ places. ArePlaces events.now.accesses.items co.now (length co.now) places.items) }
{
    let count = u32::try_from(co.len()).ok().ok_or(NoMemory)?;
    let mut places = vec![in alloc; 0; events.accesses.len()]?;
    for place in 0..count {
        set_place(events, &mut places, at(co, place as usize), place + 1);
    }
    Ok(places)
}

fn set_place(events: &Events, places: &mut Vec<u32>, id: EventId, behind: u32)
    requires numbered { AreNumbered events.now.accesses.items events.now.firsts.items }
    requires size { length places.old.items ≡ length events.now.accesses.items }
    ensures { (co : List AnyId) (place : ℕ) → IsDistinct co → slice_get co place ≡ Some id → behind ≡ place + 1
        → ArePlaces events.now.accesses.items co place places.old.items → ArePlaces events.now.accesses.items co (place + 1) places.new.items }
{
    let Some(found) = events.look(id) else {
        return;
    };
    places[found.number as usize] = behind;
}

/// The place in co from which on writes overwrite what comes from the source.
pub fn start_of(events: &Events, places: &[u32], source: Source) -> u32
    requires { AreNumbered events.now.accesses.items events.now.firsts.items }
    ensures { (co : List AnyId) → ArePlaces events.now.accesses.items co (length co) places.now → IsKnown events.now.accesses.items co source → IsFrom co source result }
{
    let Source::From(id) = source else {
        return 0;
    };
    let Some(found) = events.look(id) else {
        return 0;
    };
    match places.get(found.number as usize) {
        Some(place) => *place,
        None => 0,
    }
}

/// The slots of an entry of co.
fn push_write(
    sources: &mut Vec<Slot>,
    targets: &mut Vec<Slot>,
    events: &Events,
    writers: Writers,
    place: u32,
    id: EventId,
) -> Result<(), NoMemory>
    requires numbered { AreNumbered events.now.accesses.items events.now.firsts.items }
    requires few { id.thread < 32 }
    requires threads { writers.threads ≤ 32 }
    requires fits { place + 1 < 2 ^ 32 }
    ensures sources { OnOk result (Gains (IsCoSource events.now.accesses.items writers.within writers.threads place id) sources.old.items sources.new.items) }
    ensures targets { OnOk result (Gains (IsCoTarget events.now.accesses.items place id) targets.old.items targets.new.items) }
{
    let Some(found) = events.look(id) else {
        return Ok(());
    };
    push_source(sources, writers, &found, place + 1)?;
    push_target(targets, &found, place)?;
    Ok(())
}

/// The slots of one byte of a read.
fn push_read_byte(
    sources: &mut Vec<Slot>,
    writers: Writers,
    found: &Numbered,
    k: u64,
    place: u32,
) -> Result<(), NoMemory>
    requires { writers.threads ≤ 32 }
    ensures { OnOk result (Gains (IsSourceAt writers.within writers.threads found.now.access.id.thread found.now.number (found.now.access.address + k) place) sources.old.items sources.new.items) }
{
    let byte = u128::from(found.access.address) + u128::from(k);
    push_source_at(sources, writers, found, byte, place)?;
    Ok(())
}

/// The slots of byte k of a read.
fn push_read_source(
    sources: &mut Vec<Slot>,
    events: &Events,
    places: &[u32],
    writers: Writers,
    found: &Numbered,
    k: u64,
    source: Source,
) -> Result<(), NoMemory>
    requires numbered { AreNumbered events.now.accesses.items events.now.firsts.items }
    requires threads { writers.threads ≤ 32 }
    ensures { OnOk result ((co : List AnyId) → IsDistinct co → ArePlaces events.now.accesses.items co (length co) places.now → IsKnown events.now.accesses.items co source
        → Gains (IsReadSource co writers.within writers.threads found.now.number found.now.access k source) sources.old.items sources.new.items) }
{
    let place = start_of(events, places, source);
    push_read_byte(sources, writers, found, k, place)?;
    Ok(())
}

/// The slots of an entry of rf.
fn push_read(
    sources: &mut Vec<Slot>,
    events: &Events,
    places: &[u32],
    writers: Writers,
    entry: &ReadFrom,
) -> Result<(), NoMemory>
    requires numbered { AreNumbered events.now.accesses.items events.now.firsts.items }
    requires threads { writers.threads ≤ 32 }
    ensures { OnOk result ((co : List AnyId) (e : ℕ) → IsDistinct co → ArePlaces events.now.accesses.items co (length co) places.now
        → ((k : ℕ) (source : AnySource) → slice_get entry.now.bytes k ≡ Some source → IsKnown events.now.accesses.items co source)
        → Gains (IsEntrySource events.now.accesses.items co writers.within writers.threads e entry.now) sources.old.items sources.new.items) }
{
    let Some(found) = events.look(entry.read) else {
        return Ok(());
    };
    push_read_bytes(
        sources,
        events,
        places,
        writers,
        &found,
        entry.bytes.as_slice(),
    )?;
    Ok(())
}

fn push_read_bytes(
    sources: &mut Vec<Slot>,
    events: &Events,
    places: &[u32],
    writers: Writers,
    found: &Numbered,
    bytes: &[Source],
) -> Result<(), NoMemory>
    requires numbered { AreNumbered events.now.accesses.items events.now.firsts.items }
    requires threads { writers.threads ≤ 32 }
    ensures { OnOk result ((co : List AnyId) → IsDistinct co → ArePlaces events.now.accesses.items co (length co) places.now
        → ((k : ℕ) (source : AnySource) → slice_get bytes.now k ≡ Some source → IsKnown events.now.accesses.items co source)
        → Gains (Below bytes.now (IsReadSource co writers.within writers.threads found.now.number found.now.access) (length bytes.now)) sources.old.items sources.new.items) }
{
    for k in 0..bytes.len() {
        push_read_source(
            sources,
            events,
            places,
            writers,
            found,
            k as u64,
            at(bytes, k),
        )?;
    }
    Ok(())
}

/// The slots of the writes, as co lists them.
pub fn push_writes(
    sources: &mut Vec<Slot>,
    targets: &mut Vec<Slot>,
    events: &Events,
    writers: Writers,
    co: &[EventId],
) -> Result<(), NoMemory>
    requires numbered { AreNumbered events.now.accesses.items events.now.firsts.items }
    requires few { (i : ℕ) (id : AnyId) → slice_get co.now i ≡ Some id → id.thread < 32 }
    requires threads { writers.threads ≤ 32 }
    ensures sources { OnOk result (Gains (Below co.now (IsCoSource events.now.accesses.items writers.within writers.threads) (length co.now)) sources.old.items sources.new.items) }
    ensures targets { OnOk result (Gains (Below co.now (IsCoTarget events.now.accesses.items) (length co.now)) targets.old.items targets.new.items) }
{
    let count = u32::try_from(co.len()).ok().ok_or(NoMemory)?;
    for place in 0..count {
        push_write(
            sources,
            targets,
            events,
            writers,
            place,
            at(co, place as usize),
        )?;
    }
    Ok(())
}

/// The slots of the reads, as rf lists them.
pub fn push_reads(
    sources: &mut Vec<Slot>,
    events: &Events,
    places: &[u32],
    writers: Writers,
    rf: &[ReadFrom],
) -> Result<(), NoMemory>
    requires numbered { AreNumbered events.now.accesses.items events.now.firsts.items }
    requires threads { writers.threads ≤ 32 }
    ensures { OnOk result ((co : List AnyId) → IsDistinct co → ArePlaces events.now.accesses.items co (length co) places.now → AreSourcesKnown events.now.accesses.items co rf.now
        → Gains (Below rf.now (IsEntrySource events.now.accesses.items co writers.within writers.threads) (length rf.now)) sources.old.items sources.new.items) }
{
    for entry in rf {
        push_read(sources, events, places, writers, entry)?;
    }
    Ok(())
}

/// The edge of one byte of a read.
fn push_byte_edge(
    edges: &mut Vec<Edge>,
    events: &Events,
    within: bool,
    read: EventId,
    source: Source,
) -> Result<(), NoMemory>
    requires { AreNumbered events.now.accesses.items events.now.firsts.items }
    ensures { OnOk result ((k : ℕ) → Gains (IsByteEdge events.now.accesses.items within read k source) edges.old.items edges.new.items) }
{
    let Source::From(write) = source else {
        return Ok(());
    };
    if is_kept(within, write, read) {
        push_edge(edges, events, write, read)?;
    }
    Ok(())
}

/// Whether the two are of different threads, or threads do not matter.
fn is_kept(within: bool, first: EventId, second: EventId) -> bool
    ensures { IsTrue result ↔ ((within ≡ true) ⊎ (first.thread ≢ second.thread)) }
{
    within || first.thread != second.thread
}

/// The edges of an entry of rf.
fn push_entry_edges(
    edges: &mut Vec<Edge>,
    events: &Events,
    within: bool,
    entry: &ReadFrom,
) -> Result<(), NoMemory>
    requires { AreNumbered events.now.accesses.items events.now.firsts.items }
    ensures { OnOk result ((e : ℕ) → Gains (IsEntryEdge events.now.accesses.items within e entry.now) edges.old.items edges.new.items) }
{
    let bytes = entry.bytes.as_slice();
    for k in 0..bytes.len() {
        push_byte_edge(edges, events, within, entry.read, at(bytes, k))?;
    }
    Ok(())
}

/// The edges of rf, from other threads, or from all where `within` is true.
pub fn push_edges(
    edges: &mut Vec<Edge>,
    events: &Events,
    within: bool,
    rf: &[ReadFrom],
) -> Result<(), NoMemory>
    requires { AreNumbered events.now.accesses.items events.now.firsts.items }
    ensures { OnOk result (Gains (Below rf.now (IsEntryEdge events.now.accesses.items within) (length rf.now)) edges.old.items edges.new.items) }
{
    for entry in rf {
        push_entry_edges(edges, events, within, entry)?;
    }
    Ok(())
}
