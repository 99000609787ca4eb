ghost use Rattle.std.specs.Prelude.{◌≡◌, ◌≤◌, length, map, IfOk, IfErr};
ghost use Rattle.elf_write.specs.Image.{IsImage};
ghost use Rattle.arm_replay.specs.Memories.{AreDecoded, low_step};
ghost use Rattle.arm_replay.specs.Replays.{IsReplay, IsReplayFault, WalksTo};

use crate::fault::ReplayFault;
use crate::layout::first_unplaced;
use crate::memory::ThreadMemory;
use crate::relations::{all_entries, all_pairs};
use crate::thread::{ImageThread, decoded};
use crate::walk::walk_thread;
use a64_code::{A64, XReg};
use elf_write::Image;
use ev_graph::{Execution, List, ThreadRun};
use exec_text::ExecFile;
use std::alloc::Global;

/// The runs of all threads, or the first fault.
fn walk_threads(
    alloc: Global,
    image: &Image,
    file: &ExecFile,
    instrs: &[Option<A64<XReg>>],
) -> Result<List<ThreadRun>, ReplayFault>
    requires decoded { AreDecoded image.now instrs.now }
    requires few { length image.now.threads ≤ 16 }
    requires stacks { length file.now.stacks ≡ length image.now.threads }
    requires given { length file.now.threads ≡ length image.now.threads }
    ensures { WalksTo (low_step image.now file.now.stacks) image.now file.now result }
{
    let stacks = file.stacks.as_slice();
    let given = file.threads.as_slice();
    let memory = ThreadMemory { image, stacks };
    let mut runs = Vec::new(alloc);
    for (k, at) in image.threads.as_slice().iter().enumerate() {
        let thread = ImageThread {
            number: k as u32,
            memory,
            instrs,
        };
        let run = walk_thread(alloc, &thread, *at, stacks[k], &given[k])?;
        runs.push(run)?;
    }
    Ok(List::of(runs))
}

/// The execution that the text of one gives for an image: the run of each thread on the values that it is
/// given, in the layout that is given, the sources of its reads byte by byte, the order of writes that is
/// given, and the locked pairs. Else the first fault, of the layout and then of the threads, the least
/// thread first.
///
/// A thread that is to be cut is cut as soon as it has made as many accesses, inputs and outputs as it is
/// given. It takes time in proportion to the instructions that are begun, of which each thread has a
/// million at most, and memory in proportion to what the threads make.
pub fn replay(alloc: Global, image: &Image, file: &ExecFile) -> Result<Execution, ReplayFault>
    requires image { IsImage image.now }
    requires file { length file.now.threads ≡ length file.now.stacks }
    ensures replayed { IfOk result (IsReplay image.now file.now) }
    ensures fault { IfErr result (IsReplayFault image.now file.now) }
{
    let stacks = file.stacks.as_slice();
    if stacks.len() != image.threads.as_slice().len() {
        return Err(ReplayFault::LayoutThreads);
    }
    if let Some(k) = first_unplaced(image, stacks) {
        return Err(ReplayFault::Layout(k as u32));
    }
    let instrs = decoded(alloc, image.words.as_slice())?;
    let threads = walk_threads(alloc, image, file, instrs.as_slice())?;
    let rf = all_entries(alloc, threads.as_slice(), file.threads.as_slice())?;
    let rmw = all_pairs(alloc, threads.as_slice())?;
    Ok(Execution {
        stacks: List::of(Vec::from_slice(alloc, stacks)?),
        threads,
        rf: List::of(rf),
        co: List::of(Vec::from_slice(alloc, file.co.as_slice())?),
        rmw: List::of(rmw),
    })
}
