ghost use Rattle.std.specs.Prelude.{◌≡◌, ◌≤◌, ◌<◌, ◌+◌, ◌^◌, ◌↔◌, ℕ, List, Some, IsTrue, true, IfOk, OnOk, length, slice_get};
ghost use Rattle.ev_graph.specs.declared.events.Access.{Access as AnyAccess};
ghost use Rattle.ev_graph.specs.declared.events.FenceItem.{FenceItem};
ghost use Rattle.ev_graph.specs.declared.events.Item.{Item as AnyItem};
ghost use Rattle.ev_graph.specs.declared.events.Item.TheVariants as item;
ghost use Rattle.ev_graph.specs.Events.{accesses};
ghost use Rattle.ev_graph.specs.declared.events.FenceKind.{FenceKind as AnyFence};
ghost use Rattle.ev_graph.specs.declared.events.AccessKind.TheVariants as kind;
ghost use Rattle.order_models.specs.Doors.{FenceAfter, IsOfSide};
ghost use Rattle.axiom_check.specs.Gains.{Gains, Below};
ghost use Rattle.axiom_check.specs.Numbers.{AreNumbered};
ghost use Rattle.axiom_check.specs.Gates.{AreLasts, IsListing, kind_of_side, kind_of_opening, AreGate, IsAt, IsWide, IsSlotAt, IsGateSource, IsGateTarget, IsPairEdge};

use crate::bytes::key_of;
use crate::events::{Events, push_edge};
use crate::lanes::Slot;
use crate::lookup::at;
use ev_graph::{Access, AccessKind, EventId, FenceKind, Item, NoMemory};
use order_models::{Door, Opening, Side};
use std::alloc::Global;
use topo::Edge;

fn is_fence(one: &Item, fence: FenceKind) -> bool
    ensures { IsTrue result ↔ ((f : FenceItem) × (one.now ≡ item.Fence f) × (f.kind ≡ fence)) }
{
    match one {
        Item::Fence(other) => other.kind == fence,
        _ => false,
    }
}

/// The last fences of a kind that were passed, while items are passed.
#[derive(Drop)]
struct Listing {
    /// How many accesses were passed.
    count: u32,
    /// One more than how many accesses stand before the last fence of the kind; 0 where none was passed.
    value: u32,
    /// The values at the accesses.
    lasts: Vec<u32>,
}

impl Listing {
    /// Passes an item.
    fn pass(&mut self, fence: FenceKind, one: &Item) -> Result<(), NoMemory>
        ensures { OnOk result ((items : List AnyItem) (place : ℕ) → slice_get items place ≡ Some one.now
            → IsListing fence items place self.old.count self.old.value self.old.lasts.items
            → IsListing fence items (place + 1) self.new.count self.new.value self.new.lasts.items) }
    {
        let next = self.count.checked_add(1).ok_or(NoMemory)?;
        if let Item::Access(_) = one {
            self.lasts.push(self.value)?;
            self.count = next;
        } else if is_fence(one, fence) {
            self.value = next;
        }
        Ok(())
    }
}

/// For each access of a thread, and for the end, the last fence of the kind before it.
fn lasts_of(alloc: Global, items: &[Item], fence: FenceKind) -> Result<Vec<u32>, NoMemory>
    ensures { IfOk result (λ lasts. AreLasts fence items.now lasts.items) }
{
    let mut listing = Listing {
        count: 0,
        value: 0,
        lasts: Vec::new(alloc),
    };
    for one in items {
        listing.pass(fence, one)?;
    }
    let Listing {
        value,
        mut lasts,
        ..
    } = listing;
    lasts.push(value)?;
    Ok(lasts)
}

/// The fences that decide whether an access is of the side.
fn kind_of_side(side: Side) -> FenceKind
    ensures { result ≡ kind_of_side side }
{
    match side {
        Side::Before(kind) | Side::After(kind) => kind,
        _ => FenceKind::Mfence,
    }
}

/// The fences that decide whether the opening holds.
fn kind_of_opening(opening: Opening) -> FenceKind
    ensures { result ≡ kind_of_opening opening }
{
    match opening {
        Opening::Fence(kind) => kind,
        _ => FenceKind::Mfence,
    }
}

pub fn reads(access: &Access) -> bool
    ensures { IsTrue result ↔ (access.now.kind ≡ kind.Read) }
{
    access.kind == AccessKind::Read
}

pub fn writes(access: &Access) -> bool
    ensures { IsTrue result ↔ (access.now.kind ≡ kind.Write) }
{
    access.kind == AccessKind::Write
}

/// Whether a fence stands behind just n accesses.
fn is_fence_after(lasts: &[u32], n: u32) -> bool
    requires there { n < length lasts.now }
    requires fits { n + 1 < 2 ^ 32 }
    ensures { (f : AnyFence) (items : List AnyItem) → AreLasts f items lasts.now → IsTrue result ↔ FenceAfter f items n }
{
    at(lasts, n as usize) == n + 1
}

fn is_read_before(access: &Access, m: u32, lasts: &[u32]) -> bool
    requires there { m + 1 < length lasts.now }
    requires fits { m + 2 < 2 ^ 32 }
    ensures { (f : AnyFence) (items : List AnyItem) → AreLasts f items lasts.now → IsTrue result ↔ ((access.now.kind ≡ kind.Read) × FenceAfter f items (m + 1)) }
{
    reads(access) && is_fence_after(lasts, m + 1)
}

fn is_write_after(access: &Access, m: u32, lasts: &[u32]) -> bool
    requires there { m + 1 < length lasts.now }
    requires fits { m + 2 < 2 ^ 32 }
    ensures { (f : AnyFence) (items : List AnyItem) → AreLasts f items lasts.now → IsTrue result ↔ ((access.now.kind ≡ kind.Write) × FenceAfter f items m) }
{
    writes(access) && is_fence_after(lasts, m)
}

/// Whether access m of a thread is of the side.
fn is_of_side(side: Side, access: &Access, m: u32, lasts: &[u32]) -> bool
    requires there { m + 1 < length lasts.now }
    requires fits { m + 2 < 2 ^ 32 }
    ensures { (items : List AnyItem) → slice_get (accesses items) m ≡ Some access.now → AreLasts (kind_of_side side) items lasts.now → IsTrue result ↔ IsOfSide side items m }
{
    match side {
        Side::Reads => reads(access),
        Side::Writes => writes(access),
        Side::Any => true,
        Side::Locked => access.locked,
        Side::Before(_) => is_read_before(access, m, lasts),
        Side::After(_) => is_write_after(access, m, lasts),
    }
}

/// A door of a thread's items, with what decides it.
#[derive(Drop)]
pub struct Gate {
    pub door: Door,
    /// The lane's number, from 16 on.
    pub tag: u32,
    /// The last fences of the kinds that the sides and the opening name.
    pub from: Vec<u32>,
    pub to: Vec<u32>,
    pub opening: Vec<u32>,
}

impl Gate {
    pub fn of(alloc: Global, items: &[Item], door: Door, tag: u32) -> Result<Gate, NoMemory>
        ensures gate { IfOk result (λ gate. AreGate items.now door gate.from.items gate.to.items gate.opening.items) }
        ensures door { IfOk result (λ gate. gate.door ≡ door) }
        ensures tag { IfOk result (λ gate. gate.tag ≡ tag) }
    {
        Ok(Gate {
            door,
            tag,
            from: lasts_of(alloc, items, kind_of_side(door.from))?,
            to: lasts_of(alloc, items, kind_of_side(door.to))?,
            opening: lasts_of(alloc, items, kind_of_opening(door.opening))?,
        })
    }
}

/// The slot of the access with this id in a lane of its thread.
fn push_at(
    slots: &mut Vec<Slot>,
    events: &Events,
    id: EventId,
    tag: u32,
    place: u32,
) -> Result<(), NoMemory>
    requires numbered { AreNumbered events.now.accesses.items events.now.firsts.items }
    requires few { tag < 32 }
    ensures { OnOk result (Gains (IsSlotAt events.now.accesses.items id tag place) slots.old.items slots.new.items) }
{
    let Some(found) = events.look(id) else {
        return Ok(());
    };
    slots.push(Slot {
        key: key_of(u128::from(found.access.id.thread), tag, place),
        event: found.number,
    })?;
    Ok(())
}

/// The place of access m of a thread as a target.
fn place_of(opening: Opening, m: u32, lasts: &[u32]) -> u32
    requires there { m < length lasts.now }
    requires fits { m + 1 < 2 ^ 32 }
    ensures { (items : List AnyItem) → AreLasts (kind_of_opening opening) items lasts.now → IsWide opening → IsAt opening items m result }
{
    match opening {
        Opening::Always => m + 1,
        Opening::Fence(_) => at(lasts, m as usize),
        Opening::Pair => 0,
    }
}

fn push_gate_source(
    sources: &mut Vec<Slot>,
    events: &Events,
    gate: &Gate,
    access: &Access,
    m: u32,
) -> Result<(), NoMemory>
    requires numbered { AreNumbered events.now.accesses.items events.now.firsts.items }
    requires few { gate.now.tag < 32 }
    requires there { m + 1 < length gate.now.from.items }
    requires fits { m + 2 < 2 ^ 32 }
    ensures { OnOk result ((items : List AnyItem) (k : ℕ) → gate.now.tag ≡ 16 + k → slice_get (accesses items) m ≡ Some access.now
        → AreGate items gate.now.door gate.now.from.items gate.now.to.items gate.now.opening.items
        → Gains (IsGateSource events.now.accesses.items items gate.now.door k m access.now) sources.old.items sources.new.items) }
{
    if is_of_side(gate.door.from, access, m, gate.from.as_slice()) {
        push_at(sources, events, access.id, gate.tag, m + 2)?;
    }
    Ok(())
}

fn push_gate_target(
    targets: &mut Vec<Slot>,
    events: &Events,
    gate: &Gate,
    access: &Access,
    m: u32,
) -> Result<(), NoMemory>
    requires numbered { AreNumbered events.now.accesses.items events.now.firsts.items }
    requires few { gate.now.tag < 32 }
    requires there { m + 1 < length gate.now.to.items }
    requires opening { m < length gate.now.opening.items }
    requires fits { m + 2 < 2 ^ 32 }
    ensures { OnOk result ((items : List AnyItem) (k : ℕ) → gate.now.tag ≡ 16 + k → slice_get (accesses items) m ≡ Some access.now → IsWide gate.now.door.opening
        → AreGate items gate.now.door gate.now.from.items gate.now.to.items gate.now.opening.items
        → Gains (IsGateTarget events.now.accesses.items items gate.now.door k m access.now) targets.old.items targets.new.items) }
{
    if is_of_side(gate.door.to, access, m, gate.to.as_slice()) {
        let place = place_of(gate.door.opening, m, gate.opening.as_slice());
        push_at(targets, events, access.id, gate.tag, place)?;
    }
    Ok(())
}

/// The edge of accesses m and m + 1 of a thread, where they are halves of one atomic instruction.
fn push_pair(
    edges: &mut Vec<Edge>,
    events: &Events,
    gate: &Gate,
    own: &[Access],
    m: u32,
) -> Result<(), NoMemory>
    requires numbered { AreNumbered events.now.accesses.items events.now.firsts.items }
    requires there { m + 1 < length own.now }
    requires from { length own.now < length gate.now.from.items }
    requires to { length own.now < length gate.now.to.items }
    requires fits { length own.now + 1 < 2 ^ 32 }
    ensures { OnOk result ((items : List AnyItem) (a : AnyAccess) → accesses items ≡ own.now → slice_get own.now m ≡ Some a
        → AreGate items gate.now.door gate.now.from.items gate.now.to.items gate.now.opening.items
        → Gains (IsPairEdge events.now.accesses.items items gate.now.door m a) edges.old.items edges.new.items) }
{
    let first = at(own, m as usize);
    let second = at(own, m as usize + 1);
    if !are_halves(&first, &second) {
        return Ok(());
    }
    if !is_of_side(gate.door.from, &first, m, gate.from.as_slice()) {
        return Ok(());
    }
    if is_of_side(gate.door.to, &second, m + 1, gate.to.as_slice()) {
        push_edge(edges, events, first.id, second.id)?;
    }
    Ok(())
}

fn are_halves(first: &Access, second: &Access) -> bool
    ensures { IsTrue result ↔ ((first.now.kind ≡ kind.Read) × (first.now.locked ≡ true) × (second.now.kind ≡ kind.Write) × (second.now.locked ≡ true)) }
{
    is_locked_read(first) && is_locked_write(second)
}

fn is_locked_read(access: &Access) -> bool
    ensures { IsTrue result ↔ ((access.now.kind ≡ kind.Read) × (access.now.locked ≡ true)) }
{
    access.kind == AccessKind::Read && access.locked
}

fn is_locked_write(access: &Access) -> bool
    ensures { IsTrue result ↔ ((access.now.kind ≡ kind.Write) × (access.now.locked ≡ true)) }
{
    access.kind == AccessKind::Write && access.locked
}

/// The edges of all halves of atomic instructions of a thread.
pub fn push_pairs(
    edges: &mut Vec<Edge>,
    events: &Events,
    gate: &Gate,
    own: &[Access],
) -> Result<(), NoMemory>
    requires numbered { AreNumbered events.now.accesses.items events.now.firsts.items }
    requires from { length own.now < length gate.now.from.items }
    requires to { length own.now < length gate.now.to.items }
    requires fits { length own.now + 1 < 2 ^ 32 }
    ensures { OnOk result ((items : List AnyItem) → accesses items ≡ own.now → AreGate items gate.now.door gate.now.from.items gate.now.to.items gate.now.opening.items
        → Gains (Below own.now (IsPairEdge events.now.accesses.items items gate.now.door) (length own.now)) edges.old.items edges.new.items) }
{
    for m in 1..own.len() {
        push_pair(edges, events, gate, own, m as u32 - 1)?;
    }
    Ok(())
}

/// The slots of a thread's accesses in the lane of a door.
pub fn push_gate(
    sources: &mut Vec<Slot>,
    targets: &mut Vec<Slot>,
    events: &Events,
    gate: &Gate,
    own: &[Access],
) -> Result<(), NoMemory>
    requires numbered { AreNumbered events.now.accesses.items events.now.firsts.items }
    requires few { gate.now.tag < 32 }
    requires from { length own.now < length gate.now.from.items }
    requires to { length own.now < length gate.now.to.items }
    requires opening { length own.now < length gate.now.opening.items }
    requires fits { length own.now + 1 < 2 ^ 32 }
    ensures sources { OnOk result ((items : List AnyItem) (k : ℕ) → gate.now.tag ≡ 16 + k → accesses items ≡ own.now
        → AreGate items gate.now.door gate.now.from.items gate.now.to.items gate.now.opening.items
        → Gains (Below own.now (IsGateSource events.now.accesses.items items gate.now.door k) (length own.now)) sources.old.items sources.new.items) }
    ensures targets { OnOk result ((items : List AnyItem) (k : ℕ) → gate.now.tag ≡ 16 + k → accesses items ≡ own.now → IsWide gate.now.door.opening
        → AreGate items gate.now.door gate.now.from.items gate.now.to.items gate.now.opening.items
        → Gains (Below own.now (IsGateTarget events.now.accesses.items items gate.now.door k) (length own.now)) targets.old.items targets.new.items) }
{
    for m in 0..own.len() {
        let access = at(own, m);
        push_gate_source(sources, events, gate, &access, m as u32)?;
        push_gate_target(targets, events, gate, &access, m as u32)?;
    }
    Ok(())
}
