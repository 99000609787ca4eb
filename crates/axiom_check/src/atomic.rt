ghost use Rattle.std.specs.Prelude.{◌≡◌, ◌≢◌, ◌≤◌, ◌<◌, ◌+◌, ◌^◌, ◌↔◌, [], ℕ, List, Some, None, IsTrue, IfOk, MatchOption, length, slice_get};
ghost use Rattle.std.specs.Option.{option_map};
ghost use Rattle.ev_graph.specs.declared.events.Access.{Access as AnyAccess};
ghost use Rattle.ev_graph.specs.declared.events.AccessKind.TheVariants as kind;
ghost use Rattle.ev_graph.specs.declared.events.EventId.{EventId as AnyId};
ghost use Rattle.ev_graph.specs.declared.execution.ReadFrom.{ReadFrom as AnyEntry};
ghost use Rattle.ev_graph.specs.declared.execution.Source.TheVariants as origin;
ghost use Rattle.ev_graph.specs.Events.{event, Covers};
ghost use Rattle.ev_graph.specs.Places.{StandsIn, IsDistinct, Earlier};
ghost use Rattle.ev_graph.specs.WellFormed.{all_accesses};
ghost use Rattle.order_models.specs.Consistent.{Atomic};
ghost use Rattle.axiom_check.specs.declared.lanes.Slot.{Slot as AnySlot};
ghost use Rattle.axiom_check.specs.Atomic.{IsLeastTriple, AreTold, AreFew, OverwritesByte, OverwritesSome, IsRival, ComesBetween, AreHalves, IsFirstAccess, IsTripleOf, IsTripleAt, IsFirstTriple, triple_with};
ghost use Rattle.axiom_check.specs.Bytes.{key, ArePlaces, IsCoTarget, IsFrom, IsKnown};
ghost use Rattle.axiom_check.specs.External.{IsJudgeable};
ghost use Rattle.axiom_check.specs.Gains.{Gains, Below};
ghost use Rattle.axiom_check.specs.Lanes.{IsRising};
ghost use Rattle.axiom_check.specs.Numbers.{AreNumbered, IsNumbered};

use crate::bytes::{Writers, key_of, places_of, push_writes, start_of};
use crate::events::Events;
use crate::gates::{reads, writes};
use crate::lanes::{Slot, first_at, sorted};
use crate::lookup::at;
use ev_graph::{Access, EventId, Execution, NoMemory, ReadFrom, Source, overlaps};
use std::alloc::Global;

/// The halves of an atomic instruction, and a write of another thread that comes between.
#[derive(Clone, Copy, Debug, PartialEq, Eq)]
pub struct Triple {
    pub read: EventId,
    pub between: EventId,
    pub write: EventId,
}

/// Whether one of the slots has a key in this range.
fn has_between(slots: &[Slot], low: u128, high: u128) -> bool
    requires { IsRising slots.now }
    ensures { (slot : AnySlot) → StandsIn slots.now slot → low ≤ slot.key → slot.key < high → IsTrue result }
{
    match slots.get(first_at(slots, low)) {
        Some(slot) => slot.key < high,
        None => false,
    }
}

/// Whether this thread, if it is not the own one, has a write at the byte, from one place in co on and before another.
fn is_written_by(slots: &[Slot], thread: u32, own: u32, byte: u128, from: u32, end: u32) -> bool
    requires rising { IsRising slots.now }
    requires byte { byte < 2 ^ 90 }
    requires few { thread < 32 }
    ensures { (place : ℕ) (slot : AnySlot) → thread ≢ own → from ≤ place → place < end → StandsIn slots.now slot → slot.key ≡ key byte thread place
        → IsTrue result }
{
    if thread == own {
        return false;
    }
    has_between(slots, key_of(byte, thread, from), key_of(byte, thread, end))
}

/// Whether a thread but this one has a write at the byte, from one place in co on and before another.
fn is_written(slots: &[Slot], own: u32, byte: u128, from: u32, end: u32) -> bool
    requires rising { IsRising slots.now }
    requires byte { byte < 2 ^ 90 }
    ensures { (thread : ℕ) (place : ℕ) (slot : AnySlot) → thread < 16 → thread ≢ own → from ≤ place → place < end → StandsIn slots.now slot
        → slot.key ≡ key byte thread place → IsTrue result }
{
    for thread in 0..16 {
        if is_written_by(slots, thread, own, byte, from, end) {
            return true;
        }
    }
    false
}

/// Whether one place is before another.
fn precedes(place: u32, behind: u32) -> bool
    ensures { IsTrue result ↔ (place < behind) }
{
    place < behind
}

/// Whether a write covers the byte that is so far behind an address.
fn covers(write: &Access, address: u64, k: u64) -> bool
    ensures { IsTrue result ↔ Covers (event write.now) (address + k) }
{
    let first = u128::from(write.address);
    let byte = u128::from(address) + u128::from(k);
    first <= byte && byte < first + u128::from(write.size)
}

/// Whether a write that stands before this place in co overwrites what a read finds at its byte k.
fn overwrites_byte(
    events: &Events,
    places: &[u32],
    read: &Access,
    k: u64,
    source: Source,
    write: &Access,
    behind: u32,
) -> bool
    requires { AreNumbered events.now.accesses.items events.now.firsts.items }
    ensures { (co : List AnyId) → IsDistinct co → ArePlaces events.now.accesses.items co (length co) places.now → IsKnown events.now.accesses.items co source
        → IsFrom co (origin.From write.now.id) behind → IsTrue result ↔ OverwritesByte co read.now write.now k source }
{
    if covers(write, read.address, k) {
        return precedes(start_of(events, places, source), behind);
    }
    false
}

/// Whether a write that stands before this place in co overwrites what a read finds.
fn overwrites(
    events: &Events,
    places: &[u32],
    read: &Access,
    bytes: &[Source],
    write: &Access,
    behind: u32,
) -> bool
    requires { AreNumbered events.now.accesses.items events.now.firsts.items }
    ensures { (co : List AnyId) → AreTold events.now.accesses.items co places.now bytes.now → IsFrom co (origin.From write.now.id) behind
        → IsTrue result ↔ OverwritesSome co bytes.now read.now write.now }
{
    for k in 0..bytes.len() {
        if overwrites_byte(events, places, read, k as u64, at(bytes, k), write, behind) {
            return true;
        }
    }
    false
}

/// Whether an access is a write of another thread than the read, and has a byte in common with the write.
fn is_rival(read: &Access, write: &Access, other: &Access) -> bool
    ensures { IsTrue result ↔ IsRival read.now write.now other.now }
{
    writes(other) && other.id.thread != read.id.thread && overlaps(other, write)
}

/// Whether a write is before another in co, and overwrites what a read finds.
fn overwrites_before(
    events: &Events,
    places: &[u32],
    read: &Access,
    bytes: &[Source],
    write: &Access,
    other: &Access,
) -> bool
    requires { AreNumbered events.now.accesses.items events.now.firsts.items }
    ensures { (co : List AnyId) (m : ℕ) (n : ℕ) → AreTold events.now.accesses.items co places.now bytes.now → write.now.kind ≡ kind.Write
        → other.now.kind ≡ kind.Write → slice_get events.now.accesses.items m ≡ Some write.now → slice_get events.now.accesses.items n ≡ Some other.now
        → IsTrue result ↔ (Earlier co other.now.id write.now.id × OverwritesSome co bytes.now read.now other.now) }
{
    let behind = start_of(events, places, Source::From(other.id));
    let end = start_of(events, places, Source::From(write.id));
    if precedes(behind, end) {
        return overwrites(events, places, read, bytes, other, behind);
    }
    false
}

/// Whether an access comes between the halves of an atomic instruction.
fn comes_between(
    events: &Events,
    places: &[u32],
    read: &Access,
    bytes: &[Source],
    write: &Access,
    other: &Access,
) -> bool
    requires { AreNumbered events.now.accesses.items events.now.firsts.items }
    ensures { (co : List AnyId) (m : ℕ) (n : ℕ) → AreTold events.now.accesses.items co places.now bytes.now → write.now.kind ≡ kind.Write
        → slice_get events.now.accesses.items m ≡ Some write.now → slice_get events.now.accesses.items n ≡ Some other.now
        → IsTrue result ↔ ComesBetween co bytes.now read.now write.now other.now }
{
    if is_rival(read, write, other) {
        return overwrites_before(events, places, read, bytes, write, other);
    }
    false
}

/// The first access that comes between the halves of an atomic instruction.
fn first_between(
    events: &Events,
    places: &[u32],
    read: &Access,
    bytes: &[Source],
    write: &Access,
) -> Option<Access>
    requires { AreNumbered events.now.accesses.items events.now.firsts.items }
    ensures { (co : List AnyId) (m : ℕ) → AreTold events.now.accesses.items co places.now bytes.now → write.now.kind ≡ kind.Write
        → slice_get events.now.accesses.items m ≡ Some write.now
        → IsFirstAccess events.now.accesses.items (ComesBetween co bytes.now read.now write.now) result }
{
    let accesses = events.accesses.as_slice();
    for number in 0..accesses.len() {
        let other = at(accesses, number);
        if comes_between(events, places, read, bytes, write, &other) {
            return Some(other);
        }
    }
    None
}

/// Whether two accesses are the halves of one atomic instruction.
fn are_halves(read: &Access, write: &Access) -> bool
    ensures { IsTrue result ↔ AreHalves read.now write.now }
{
    is_next(read.id, write.id) && (reads(read) && read.locked) && (writes(write) && write.locked)
}

/// Whether the second id is of the access after the first in its thread.
fn is_next(first: EventId, second: EventId) -> bool
    ensures { IsTrue result ↔ ((first.thread ≡ second.thread) × (second.index ≡ first.index + 1)) }
{
    first.thread == second.thread && u64::from(second.index) == u64::from(first.index) + 1
}

/// Where the writes of an execution stand in co, and a slot for each byte of each, by byte and thread.
#[derive(Drop)]
struct Writes {
    places: Vec<u32>,
    slots: Vec<Slot>,
}

/// Whether a write of another thread overwrites what a read finds at its byte k, before this place in co.
fn is_byte_overwritten(
    events: &Events,
    writes: &Writes,
    read: &Access,
    k: u64,
    source: Source,
    end: u32,
) -> bool
    requires numbered { AreNumbered events.now.accesses.items events.now.firsts.items }
    requires rising { IsRising writes.now.slots.items }
    ensures { (co : List AnyId) → IsDistinct co → ArePlaces events.now.accesses.items co (length co) writes.now.places.items
        → IsKnown events.now.accesses.items co source → Gains (Below co (IsCoTarget events.now.accesses.items) (length co)) [] writes.now.slots.items
        → (n : ℕ) (place : ℕ) (w : AnyAccess) → slice_get events.now.accesses.items n ≡ Some w → w.id.thread < 16 → w.id.thread ≢ read.now.id.thread
        → slice_get co place ≡ Some w.id → place < end → OverwritesByte co read.now w k source → IsTrue result }
{
    let byte = u128::from(read.address) + u128::from(k);
    let places = writes.places.as_slice();
    let slots = writes.slots.as_slice();
    is_written(
        slots,
        read.id.thread,
        byte,
        start_of(events, places, source),
        end,
    )
}

/// Whether a write of another thread overwrites what a read finds, before this place in co.
fn is_overwritten(
    events: &Events,
    writes: &Writes,
    read: &Access,
    bytes: &[Source],
    end: u32,
) -> bool
    requires numbered { AreNumbered events.now.accesses.items events.now.firsts.items }
    requires rising { IsRising writes.now.slots.items }
    ensures { (co : List AnyId) → AreTold events.now.accesses.items co writes.now.places.items bytes.now
        → Gains (Below co (IsCoTarget events.now.accesses.items) (length co)) [] writes.now.slots.items
        → (n : ℕ) (place : ℕ) (w : AnyAccess) → slice_get events.now.accesses.items n ≡ Some w → w.id.thread < 16 → w.id.thread ≢ read.now.id.thread
        → slice_get co place ≡ Some w.id → place < end → OverwritesSome co bytes.now read.now w → IsTrue result }
{
    for k in 0..bytes.len() {
        if is_byte_overwritten(events, writes, read, k as u64, at(bytes, k), end) {
            return true;
        }
    }
    false
}

/// The first access that comes between the halves of an atomic instruction, named with them.
fn triple_of(
    events: &Events,
    writes: &Writes,
    read: &Access,
    bytes: &[Source],
    write: &Access,
) -> Option<Triple>
    requires numbered { AreNumbered events.now.accesses.items events.now.firsts.items }
    requires rising { IsRising writes.now.slots.items }
    ensures { (co : List AnyId) (m : ℕ) → AreTold events.now.accesses.items co writes.now.places.items bytes.now → AreFew events.now.accesses.items
        → Gains (Below co (IsCoTarget events.now.accesses.items) (length co)) [] writes.now.slots.items
        → write.now.kind ≡ kind.Write → slice_get events.now.accesses.items m ≡ Some write.now
        → IsTripleOf events.now.accesses.items co bytes.now read.now write.now result }
{
    let places = writes.places.as_slice();
    let end = start_of(events, places, Source::From(write.id));
    if is_overwritten(events, writes, read, bytes, end) {
        let found = first_between(events, places, read, bytes, write);
        return named_with(read, write, found);
    }
    None
}

/// The halves of an atomic instruction and what comes between, where there is something.
fn named_with(read: &Access, write: &Access, between: Option<Access>) -> Option<Triple>
    ensures { result ≡ option_map (triple_with read.now write.now) between }
{
    match between {
        Some(other) => Some(Triple {
            read: read.id,
            between: other.id,
            write: write.id,
        }),
        None => None,
    }
}

/// The access after the one with this number, where there is one.
fn access_after(events: &Events, number: u32) -> Option<Access>
    ensures { result ≡ slice_get events.now.accesses.items (number + 1) }
{
    match events.accesses.get(number as usize + 1) {
        Some(access) => Some(*access),
        None => None,
    }
}

/// The first access that comes between the halves of the instruction of this entry's read, named with them.
fn triple_at(events: &Events, writes: &Writes, entry: &ReadFrom) -> Option<Triple>
    requires numbered { AreNumbered events.now.accesses.items events.now.firsts.items }
    requires rising { IsRising writes.now.slots.items }
    ensures { (co : List AnyId) → AreTold events.now.accesses.items co writes.now.places.items entry.now.bytes → AreFew events.now.accesses.items
        → Gains (Below co (IsCoTarget events.now.accesses.items) (length co)) [] writes.now.slots.items
        → IsTripleAt events.now.accesses.items co entry.now result }
{
    let Some(found) = events.look(entry.read) else {
        return None;
    };
    let Some(write) = access_after(events, found.number) else {
        return None;
    };
    let bytes = entry.bytes.as_slice();
    if are_halves(&found.access, &write) {
        return triple_of(events, writes, &found.access, bytes, &write);
    }
    None
}

/// What comes between the halves of the first instruction that is not whole.
fn first_triple(events: &Events, writes: &Writes, rf: &[ReadFrom]) -> Option<Triple>
    requires numbered { AreNumbered events.now.accesses.items events.now.firsts.items }
    requires rising { IsRising writes.now.slots.items }
    ensures { (co : List AnyId) → ((e : ℕ) (entry : AnyEntry) → slice_get rf.now e ≡ Some entry
        → AreTold events.now.accesses.items co writes.now.places.items entry.bytes)
        → AreFew events.now.accesses.items → Gains (Below co (IsCoTarget events.now.accesses.items) (length co)) [] writes.now.slots.items
        → IsFirstTriple events.now.accesses.items co rf.now result }
{
    for entry in rf {
        match triple_at(events, writes, entry) {
            Some(triple) => return Some(triple),
            None => {}
        }
    }
    None
}

impl Writes {
    fn of(alloc: Global, events: &Events, co: &[EventId]) -> Result<Writes, NoMemory>
        requires numbered { AreNumbered events.now.accesses.items events.now.firsts.items }
        requires distinct { IsDistinct co.now }
        requires few { (i : ℕ) (id : AnyId) → slice_get co.now i ≡ Some id → id.thread < 32 }
        ensures places { IfOk result (λ writes. ArePlaces events.now.accesses.items co.now (length co.now) writes.places.items) }
        ensures rising { IfOk result (λ writes. IsRising writes.slots.items) }
        ensures slots { IfOk result (λ writes. Gains (Below co.now (IsCoTarget events.now.accesses.items) (length co.now)) [] writes.slots.items) }
    {
        let mut sources = Vec::new(alloc);
        let mut slots = Vec::new(alloc);
        let none = Writers {
            threads: 0,
            within: false,
        };
        push_writes(&mut sources, &mut slots, events, none, co)?;
        Ok(Writes {
            places: places_of(alloc, events, co)?,
            slots: sorted(slots)?,
        })
    }
}

/// The first triple that breaks the axiom Atomic; None where there is none.
///
/// The first is the least by its read, and then by the write between, where accesses go by thread and then
/// by number. Takes time near-linear in the accesses, but for an atomic instruction whose halves differ in
/// their bytes, which takes time linear in them.
pub fn atomic(alloc: Global, events: &Events, x: &Execution) -> Result<Option<Triple>, NoMemory>
    requires judgeable { IsJudgeable x.now }
    requires all { events.now.accesses.items ≡ all_accesses x.now.threads }
    requires numbered { AreNumbered events.now.accesses.items events.now.firsts.items }
    ensures { IfOk result (λ found. MatchOption found (Atomic x.now) (λ triple. IsLeastTriple x.now triple)) }
{
    let co = x.co.as_slice();
    let rf = x.rf.as_slice();
    let writes = Writes::of(alloc, events, co)?;
    Ok(first_triple(events, &writes, rf))
}
