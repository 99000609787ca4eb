ghost use Rattle.std.specs.Prelude.{◌≡◌, ◌≤◌, ◌^◌, ◌+◌, ◌*◌, ℕ, length, map, IfOk};
ghost use Rattle.ev_graph.specs.Places.{StandsIn};
ghost use Rattle.behavior.specs.Acts.{Permission};
ghost use Rattle.elf_read.specs.Elf.{parts_of, IsProgram};
ghost use Rattle.elf_write.specs.Image.{image_part, kept, IsImage};
ghost use Rattle.cfg_walk.specs.Code.{IsIncreasing};
ghost use Rattle.cfg_walk.specs.Machine.{exits_of};
ghost use Rattle.a64_code.specs.declared.instr.XReg.{XReg as Register};
ghost use Rattle.a64_table.specs.State.{AState};
ghost use Rattle.a64_block.specs.declared.block.ABlock.{ABlock as Block};
ghost use Rattle.code_layout.specs.Places.{blocks_size, place_from, start_of, ArePlacesOf, AreTold};
ghost use Rattle.code_layout.specs.Carried.{IsCarriedOut};
ghost use Rattle.code_layout.specs.Conditions.{AreClosed, AreBegun};
ghost use Rattle.a64_block.specs.Barriers.{spelled_barriers};
ghost use Rattle.code_layout.specs.Barriers.{barriers_of};
ghost use Rattle.code_layout.specs.Code.{IsLaidOut};

use crate::code::{encoded, push_blocks, push_returns};
use crate::places::Places;
use a64_block::ABlock;
use a64_code::XReg;
use cfg_walk::Code;
use elf_read::Elf;
use elf_write::{Image, code_address, kept_segments};
use ev_graph::{List, NoMemory};
use std::alloc::Global;

/// The words of blocks and of the returns, which go to these sites.
fn laid_words(
    alloc: Global,
    blocks: &[ABlock<XReg>],
    sites: &[u64],
    places: &Places,
) -> Result<Vec<u32>, NoMemory>
    requires closed { AreClosed blocks.now }
    requires places { ArePlacesOf blocks.now places.now }
    requires sites { IsIncreasing sites.now }
    requires few { blocks_size blocks.now + 15 * length sites.now ≤ 2 ^ 22 }
    ensures { IfOk result (λ words. IsLaidOut blocks.now sites.now words.items) }
{
    let mut code = Vec::new(alloc);
    push_blocks(&mut code, blocks, places)?;
    push_returns(&mut code, sites, places)?;
    encoded(alloc, &code)
}

/// Where threads begin whose entries are these x86 addresses, in code that stands at an address.
fn thread_places(
    alloc: Global,
    code_address: u64,
    entries: &[u64],
    places: &Places,
) -> Result<Vec<u64>, NoMemory>
    requires places { AreTold places.now }
    requires low { code_address ≤ 2 ^ 46 }
    ensures { IfOk result (λ threads. threads.items ≡ map (λ entry. code_address + 4 * start_of places.now entry) entries.now) }
{
    let mut threads = Vec::new(alloc);
    for entry in entries {
        threads.push(code_address + 4 * places.start_of(*entry))?;
    }
    Ok(threads)
}

/// The image of a program: what it keeps of the segments, and behind them the words of its blocks, one
/// block behind the other, and then those that all returns share, which look a return address up
/// among the return sites.
///
/// The blocks are those of the code, one for each, and lead to blocks alone. They may take 2^22 words,
/// 15 for each return site counted in. Behind a block at most 122 words are executed: three, and the
/// 7 + 7 * 16 of the deepest way through a tree of 65,536 sites.
pub fn lay_out(
    alloc: Global,
    elf: &Elf,
    code: &Code,
    blocks: &[ABlock<XReg>],
) -> Result<Image, NoMemory>
    requires program { IsProgram (parts_of elf.now) elf.now.threads }
    requires closed { AreClosed blocks.now }
    requires threads { AreBegun blocks.now elf.now.threads }
    requires sites { AreBegun blocks.now code.now.sites }
    requires sites_in_order { IsIncreasing code.now.sites }
    requires few_sites { length code.now.sites ≤ 65536 }
    requires few { blocks_size blocks.now + 15 * length code.now.sites ≤ 64 * 65536 }
    ensures carried { IfOk result (λ image. (b : Block Register) → StandsIn blocks.now b → (may : Permission) (s : AState)
        → IsCarriedOut (exits_of code.now) 122 image.code_address image.words blocks.now b may s) }
    ensures threads { IfOk result (λ image. image.threads ≡ map (place_from image.code_address blocks.now) elf.now.threads) }
    ensures segments { IfOk result (λ image. map image_part image.segments ≡ kept (parts_of elf.now)) }
    ensures image { IfOk result IsImage }
    ensures size { IfOk result (λ image. length image.words ≤ blocks_size blocks.now + 15 * length code.now.sites + 3) }
    ensures barriers { IfOk result (λ image. spelled_barriers image.words ≡ barriers_of blocks.now) }
{
    let segments = kept_segments(alloc, elf.segments.as_slice())?;
    let code_address = code_address(segments.as_slice());
    let places = Places::of(alloc, blocks)?;
    let words = laid_words(alloc, blocks, code.sites.as_slice(), &places)?;
    let threads = thread_places(alloc, code_address, elf.threads.as_slice(), &places)?;
    Ok(Image {
        segments,
        code_address,
        words: List::of(words),
        threads: List::of(threads),
    })
}
