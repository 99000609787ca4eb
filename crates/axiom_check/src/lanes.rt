ghost use Rattle.std.specs.Prelude.{◌≡◌, ◌<◌, ◌≤◌, ◌+◌, ◌^◌, ◌↔◌, ℕ, IsTrue, Some, IfOk, OnOk, length, slice_get};
ghost use Rattle.ev_graph.specs.Places.{StandsIn};
ghost use Rattle.axiom_check.specs.declared.lanes.Slot.{Slot as AnySlot};
ghost use Rattle.axiom_check.specs.Gains.{Gains, Below};
ghost use Rattle.axiom_check.specs.Lanes.{lane_of, IsRising, IsFirstAt, IsRung, IsEntry, AreBelow, AreOfEvents, Crosses, IsGraphOf};

use crate::lookup::at;
use ev_graph::NoMemory;
use std::alloc::Global;
use topo::Edge;

/// How many places a lane has.
const PLACES: u128 = 4294967296;

/// An event at a place of a lane.
#[derive(Clone, Copy)]
pub struct Slot {
    /// The lane times the number of places, and the place.
    pub key: u128,
    /// The number of the event.
    pub event: u32,
}

/// Pairs of events, told one by one or by the places of their ends.
#[derive(Drop)]
pub struct Lanes {
    /// Pairs that are told one by one.
    pub direct: Vec<Edge>,
    /// A source comes before each target of its lane from its place on.
    pub sources: Vec<Slot>,
    pub targets: Vec<Slot>,
}

/// Nodes and edges; the first nodes are events.
#[derive(Drop)]
pub struct Graph {
    pub nodes: u32,
    pub edges: Vec<Edge>,
}

/// Whether a slot of this key's lane stands at a place.
fn is_of_lane(slots: &[Slot], place: usize, key: u128) -> bool
    ensures { IsTrue result ↔ ((slot : AnySlot) × (slice_get slots.now place ≡ Some slot) × (lane_of key ≡ lane_of slot.key)) }
{
    match slots.get(place) {
        Some(slot) => key / PLACES == slot.key / PLACES,
        None => false,
    }
}

/// The first place whose key is no less.
pub fn first_at(slots: &[Slot], key: u128) -> usize
    requires { IsRising slots.now }
    ensures within { result ≤ length slots.now }
    ensures first { IsFirstAt slots.now key result }
{
    slots.partition_point(|slot| slot.key < key)
}

/// The edges of the inner node at a place of the targets.
fn push_rung(
    edges: &mut Vec<Edge>,
    events: u32,
    targets: &[Slot],
    place: usize,
    target: Slot,
) -> Result<(), NoMemory>
    requires there { slice_get targets.now place ≡ Some target }
    requires fits { events + length targets.now < 2 ^ 32 }
    ensures { OnOk result (Gains (IsRung events targets.now place target) edges.old.items edges.new.items) }
{
    let node = events + place as u32;
    edges.push(Edge {
        from: node,
        to: target.event,
    })?;
    if is_of_lane(targets, place + 1, target.key) {
        edges.push(Edge {
            from: node,
            to: node + 1,
        })?;
    }
    Ok(())
}

/// The edges of all inner nodes.
fn push_rungs(edges: &mut Vec<Edge>, events: u32, targets: &[Slot]) -> Result<(), NoMemory>
    requires { events + length targets.now < 2 ^ 32 }
    ensures { OnOk result (Gains (Below targets.now (IsRung events targets.now) (length targets.now)) edges.old.items edges.new.items) }
{
    for place in 0..targets.len() {
        push_rung(edges, events, targets, place, at(targets, place))?;
    }
    Ok(())
}

/// The edge of a source to the first target of its lane from its place on, where there is one.
fn push_entry(
    edges: &mut Vec<Edge>,
    events: u32,
    targets: &[Slot],
    source: Slot,
) -> Result<(), NoMemory>
    requires rising { IsRising targets.now }
    requires fits { events + length targets.now < 2 ^ 32 }
    ensures { OnOk result ((i : ℕ) → Gains (IsEntry events targets.now i source) edges.old.items edges.new.items) }
{
    let place = first_at(targets, source.key);
    if is_of_lane(targets, place, source.key) {
        edges.push(Edge {
            from: source.event,
            to: events + place as u32,
        })?;
    }
    Ok(())
}

/// The edges of all sources.
fn push_entries(
    edges: &mut Vec<Edge>,
    events: u32,
    targets: &[Slot],
    sources: &[Slot],
) -> Result<(), NoMemory>
    requires rising { IsRising targets.now }
    requires fits { events + length targets.now < 2 ^ 32 }
    ensures { OnOk result (Gains (Below sources.now (IsEntry events targets.now) (length sources.now)) edges.old.items edges.new.items) }
{
    for place in 0..sources.len() {
        push_entry(edges, events, targets, at(sources, place))?;
    }
    Ok(())
}

/// The slots in the order of their keys.
pub fn sorted(slots: Vec<Slot>) -> Result<Vec<Slot>, NoMemory>
    ensures rising { IfOk result (λ sorted. IsRising sorted.items) }
    ensures same { IfOk result (λ sorted. (s : AnySlot) → StandsIn sorted.items s ↔ StandsIn slots.items s) }
{
    let mut sorted = slots;
    sorted.sort_by_key(|slot| slot.key)?;
    Ok(sorted)
}

impl Lanes {
    /// A graph whose ways from event to event are the pairs.
    pub fn graph(self, events: u32) -> Result<Graph, NoMemory>
        requires direct { AreBelow events self.direct.items }
        requires sources { AreOfEvents events self.sources.items }
        requires targets { AreOfEvents events self.targets.items }
        ensures graph { IfOk result (λ graph. IsGraphOf events graph.nodes graph.edges.items (Crosses self.direct.items self.sources.items self.targets.items)) }
        ensures more { IfOk result (λ graph. events ≤ graph.nodes) }
    {
        let Lanes {
            direct,
            sources,
            targets,
        } = self;
        let targets = sorted(targets)?;
        let Some(nodes) = events.checked_add(u32::try_from(targets.len()).ok().ok_or(NoMemory)?)
        else {
            return Err(NoMemory);
        };
        let mut edges = direct;
        push_rungs(&mut edges, events, targets.as_slice())?;
        push_entries(&mut edges, events, targets.as_slice(), sources.as_slice())?;
        Ok(Graph { nodes, edges })
    }
}
