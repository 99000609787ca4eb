ghost use Rattle.std.specs.Prelude.{◌≡◌, ◌<◌, ◌≤◌, ◌+◌, ◌^◌, ◌↔◌, All, IfOk, IsTrue, map};
ghost use Rattle.elf_read.specs.Elf.{IsProgram, parts_of};
ghost use Rattle.elf_read.specs.FirstFault.{LooksFor, rank};
ghost use Rattle.code_at.specs.Code.{program_of};
ghost use Rattle.graph_reach.specs.Reach.{IsReachedSet};
ghost use Rattle.cfg_walk.specs.Code.{IsCodeOf, IsIncreasing};
ghost use Rattle.cfg_walk.specs.Least.{IsLeast};
ghost use Rattle.flag_use.specs.Faults.{Holds};
ghost use Rattle.flag_use.specs.Onward.{hub};
ghost use Rattle.flag_use.specs.Walk.{next, nodes_of, IsOrdered};
ghost use Rattle.flag_use.specs.Walk.{ReadsFound, ReadsSomeFound, StandsReading};

use crate::flag::Flag;
use crate::reading::reads;
use crate::track::{Track, node_of};
use crate::walk::{Walk, push_nodes};
use cfg_walk::Code;
use elf_read::{Elf, FileFault, TransFault};
use ev_graph::NoMemory;
use graph_reach::{Nodes, reach};
use std::alloc::Global;
use x64_syntax::Placed;

/// The nodes to which paths of the code come.
fn paths(alloc: Global, code: &Code, elf: &Elf) -> Result<Nodes, NoMemory>
    requires ordered { IsOrdered code.now.placed code.now.sites }
    requires low { All (λ a. a < hub) elf.now.threads }
    ensures { IfOk result (IsReachedSet (next code.now.placed code.now.sites)
        (nodes_of elf.now.threads Track.Any)) }
{
    let walk = Walk {
        placed: code.placed.as_slice(),
        sites: code.sites.as_slice(),
    };
    let mut starts = Vec::new(alloc);
    push_nodes(&mut starts, elf.threads.as_slice(), Track::Any)?;
    // Nothing weighs anything, so no limit is passed.
    let found = reach(alloc, &walk, starts.as_slice(), 0)?;
    Ok(found.unwrap())
}

/// Whether an instruction reads a flag that some path leaves undefined.
fn reads_found(nodes: &Nodes, p: &Placed, flag: Flag) -> bool
    requires { p.now.address ≤ 2 ^ 60 }
    ensures { IsTrue result ↔ ReadsFound nodes.now p.now flag }
{
    reads(flag, &p.instr) && nodes.contains(node_of(p.address, Track::Undefined(flag)))
}

/// The same of any of the flags.
fn reads_some_found(nodes: &Nodes, p: &Placed) -> bool
    requires { p.now.address ≤ 2 ^ 60 }
    ensures { IsTrue result ↔ ReadsSomeFound nodes.now p.now }
{
    reads_found(nodes, p, Flag::Cf)
        || reads_found(nodes, p, Flag::Zf)
        || reads_found(nodes, p, Flag::Sf)
        || reads_found(nodes, p, Flag::Of)
}

/// The least address of an instruction that reads a flag which some path leaves undefined.
fn first_reading(nodes: &Nodes, placed: &[Placed]) -> Option<u64>
    requires sorted { IsIncreasing (map (λ p. p.address) placed.now) }
    requires low { All (λ p. p.address ≤ 2 ^ 60) placed.now }
    ensures { IsLeast (StandsReading nodes.now placed.now) result }
{
    for p in placed {
        if reads_some_found(nodes, p) {
            return Some(p.address);
        }
    }
    None
}

/// Refuses code in which some instruction reads a flag that a path to it leaves undefined, for the
/// least address of one (Intel SDM volume 2, "Flags Affected" of each instruction).
///
/// The code is that of the program. Takes time n log n in its instructions, whatever the number of
/// returns and return sites.
pub fn check_flags(alloc: Global, code: &Code, elf: &Elf) -> Result<(), TransFault>
    requires program { IsProgram (parts_of elf.now) elf.now.threads }
    requires code { IsCodeOf (program_of elf.now) code.now }
    ensures first { LooksFor (Holds (program_of elf.now)) (rank (FileFault.UndefinedFlag 0))
        (rank (FileFault.UndefinedFlag 0) + 1) result }
{
    let nodes = paths(alloc, code, elf)?;
    match first_reading(&nodes, code.placed.as_slice()) {
        Some(address) => Err(TransFault::File(FileFault::UndefinedFlag(address))),
        None => Ok(()),
    }
}
