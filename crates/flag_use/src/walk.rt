ghost use Rattle.std.specs.Prelude.{◌≡◌, ◌<◌, ◌≤◌, ◌++◌, All, map, false, true};
ghost use Rattle.std.specs.Prelude.{OnOk, IfSome, IfNone, Some, None};
ghost use Rattle.std.specs.List.{AllByRecursion, flat_map};
ghost use Rattle.alu_width.specs.Effects.{leaves_undefined};
ghost use Rattle.cfg_walk.specs.Code.{IsIncreasing};
ghost use Rattle.cfg_walk.specs.Machine.{placed_at};
ghost use Rattle.flag_use.specs.Onward.{addresses_in, hub};
ghost use Rattle.flag_use.specs.Effects.{effects_told};
ghost use Rattle.flag_use.specs.Walk.{IsLow, IsOrdered};
ghost use Rattle.flag_use.specs.Walk.{all_flags, next_by, next_from, nodes_of, onward, undefined_nodes};

use crate::effects::{Effects, effects_of};
use crate::flag::Flag;
use crate::onward::{Onward, goes_on};
use crate::track::{Track, node_of, track_of};
use ev_graph::NoMemory;
use graph_reach::Graph;
use x64_syntax::Placed;

/// An address above all code, which stands for every return site.
const HUB: u64 = 1 << 60;

/// The flags.
const FLAGS: [Flag; 4] = [Flag::Cf, Flag::Zf, Flag::Sf, Flag::Of];

/// The paths of code as a graph.
///
/// A return leads to the hub, and the hub to each return site, so that the edges between them are no
/// more than the returns and the sites.
#[derive(Drop)]
pub(crate) struct Walk<'a> {
    pub placed: &'a [Placed],
    pub sites: &'a [u64],
    ghost ordered: { IsOrdered placed.now sites.now },
}

/// The instruction at an address, among instructions in the order of their addresses.
fn instruction_at(placed: &[Placed], address: u64) -> Option<&Placed>
    requires { IsIncreasing (map (λ p. p.address) placed.now) }
    ensures some { IfSome result (λ p. placed_at placed.now address ≡ Some p.now) }
    ensures none { IfNone result (placed_at placed.now address ≡ None) }
{
    match placed.binary_search_by_key(&address, |p| p.address) {
        Ok(place) => Some(&placed[place]),
        Err(_) => None,
    }
}

/// Puts the nodes at addresses behind what the list has.
pub(crate) fn push_nodes(
    into: &mut Vec<u64>,
    addresses: &[u64],
    track: Track,
) -> Result<(), NoMemory>
    requires { All (λ a. a < hub) addresses.now }
    ensures { OnOk result (into.new.items ≡ into.old.items ++ nodes_of addresses.now track) }
{
    for address in addresses {
        into.push(node_of(*address, track))?;
    }
    Ok(())
}

/// Puts the nodes to which a path goes on behind what the list has.
fn push_onward(into: &mut Vec<u64>, onward: Onward, track: Track) -> Result<(), NoMemory>
    requires { AllByRecursion (λ a. a ≤ hub) (addresses_in onward) }
    ensures { OnOk result (into.new.items
        ≡ into.old.items ++ nodes_of (addresses_in onward) track) }
{
    match onward {
        Onward::Nowhere => Ok(()),
        Onward::To(address) => Ok(into.push(node_of(address, track))?),
        Onward::Either(address, other) => {
            into.push(node_of(address, track))?;
            Ok(into.push(node_of(other, track))?)
        }
        Onward::ToSites => Ok(into.push(node_of(HUB, track))?),
    }
}

/// Puts the nodes that ask for a flag behind what the list has, if the effects leave it undefined.
fn push_undefined(
    into: &mut Vec<u64>,
    effects: &Effects,
    was: bool,
    onward: Onward,
    flag: Flag,
) -> Result<(), NoMemory>
    requires { AllByRecursion (λ a. a ≤ hub) (addresses_in onward) }
    ensures { OnOk result (into.new.items ≡ into.old.items
        ++ undefined_nodes (effects_told effects.now) was (addresses_in onward) flag) }
{
    if effects.leave_undefined(flag, was) {
        push_onward(into, onward, Track::Undefined(flag))
    } else {
        Ok(())
    }
}

/// Puts the nodes that ask for each flag that the effects leave undefined behind what the list has.
fn push_each_undefined(
    into: &mut Vec<u64>,
    effects: &Effects,
    onward: Onward,
) -> Result<(), NoMemory>
    requires { AllByRecursion (λ a. a ≤ hub) (addresses_in onward) }
    ensures { OnOk result (into.new.items ≡ into.old.items
        ++ flat_map (undefined_nodes (effects_told effects.now) false (addresses_in onward))
        all_flags) }
{
    for flag in FLAGS {
        push_undefined(into, effects, false, onward, flag)?;
    }
    Ok(())
}

/// Puts the nodes to which edges lead from a node at an instruction behind what the list has.
fn push_next(into: &mut Vec<u64>, p: &Placed, track: Track) -> Result<(), NoMemory>
    requires { IsLow p.now }
    ensures { OnOk result (into.new.items ≡ into.old.items ++ next_from (Some p.now) track) }
{
    let effects = effects_of(&p.instr);
    let onward = goes_on(p);
    match track {
        Track::Any => {
            push_onward(into, onward, Track::Any)?;
            push_each_undefined(into, &effects, onward)
        }
        Track::Undefined(flag) => push_undefined(into, &effects, true, onward, flag),
    }
}

impl Graph for Walk<'_> {
    ghost use Rattle.flag_use.specs.Walk.{next, no_weight};

    ghost weight_of = { λ walk. no_weight };

    ghost successors_of = { λ walk. next walk.placed.now walk.sites.now };

    fn weight(&self, _node: u64) -> u64 {
        0
    }

    fn successors(&self, node: u64, into: &mut Vec<u64>) -> Result<(), NoMemory> {
        let address = node / 8;
        let track = track_of(node % 8);
        if address == HUB {
            return push_nodes(into, self.sites, track);
        }
        match instruction_at(self.placed, address) {
            Some(p) => push_next(into, p, track),
            None => Ok(()),
        }
    }
}
