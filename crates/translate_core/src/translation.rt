ghost use Rattle.std.specs.Prelude.{◌≡◌, Err, IfOk, length};
ghost use Rattle.elf_read.specs.declared.fault.FileFault.{FileFault as AnyFault};
ghost use Rattle.elf_read.specs.declared.fault.TransFault.TheVariants.{File};
ghost use Rattle.elf_read.specs.ElfFile.{threads_of};
ghost use Rattle.elf_write.specs.Image.{IsImage};
ghost use Rattle.elf_write.specs.Written.{IsFileOf};
ghost use Rattle.cfg_walk.specs.Code.{IsFileCode};
ghost use Rattle.code_at.specs.Code.{program_in};
ghost use Rattle.fence_place.specs.Marked.{marked};
ghost use Rattle.frame_marks.specs.Marks.{ArePrivate};
ghost use Rattle.carry_spec.specs.Barriers.{HasPlannedBarriers};
ghost use Rattle.carry_spec.specs.Carries.{AreFew, EachFollowsPlan, NeverJumpsWrong};
ghost use Rattle.carry_spec.specs.Defined.{ReadsDefinedFlags};
ghost use Rattle.carry_spec.specs.Faults.{IsRefusedFor};
ghost use Rattle.carry_spec.specs.Plan.{ArePlans, IsSummary};
ghost use Rattle.carry_spec.specs.Threads.{OfEachThread};
ghost use Rattle.translate_core.specs.Translated.{IsReadOf, IsCarried};

use crate::block::pass_blocks;
use crate::plan::plan_code;
use carry_spec::{BlockPlan, Summary};
use cfg_walk::{Code, recover};
use code_layout::lay_out;
use elf_read::{Elf, TransFault, read_elf};
use elf_write::{Image, write_elf};
use ev_graph::List as Seq;
use flag_use::check_flags;
use frame_marks::marks;
use std::alloc::Global;
use x64_syntax::Marks;

/// What a translation gives: the program that was read and its code, the slots that are private, the image and
/// its file, and the fence plan of the code's blocks with what is counted of them.
#[derive(Drop)]
pub struct Translated {
    pub elf: Elf,
    pub code: Code,
    pub private: Marks,
    pub image: Image,
    pub file: Seq<u8>,
    pub plan: Seq<BlockPlan>,
    pub summary: Summary,
}

/// Translates a file: the image that is made of it carries it, each of its runs has the planned fences, and it
/// has at most 64 words for each instruction of the code and 64 more. Accesses to frames that do not escape are
/// private, and have no fences.
///
/// A file is refused for the first of its faults. Takes time n log n in the reached instructions, at most 65,536,
/// and linear in the size of the file.
pub fn translate(alloc: Global, bytes: &[u8]) -> Result<Translated, TransFault>
    ensures elf { IfOk result (λ made. IsReadOf bytes.now made.elf) }
    ensures code { IfOk result (λ made. IsFileCode bytes.now made.code) }
    ensures private { IfOk result (λ made. ArePrivate (program_in bytes.now) made.private.slots) }
    ensures image { IfOk result (λ made. IsImage made.image) }
    ensures file { IfOk result (λ made. IsFileOf made.image made.file) }
    ensures carries { IfOk result (λ made. IsCarried (marked made.private.slots) bytes.now made.file made.code made.image.code_address made.image.words) }
    ensures follows { IfOk result (λ made. EachFollowsPlan (marked made.private.slots) bytes.now made.file made.code made.image.code_address made.image.words) }
    ensures jumps { IfOk result (λ made. OfEachThread bytes.now made.file made.code made.image.code_address made.image.words NeverJumpsWrong) }
    ensures flags { IfOk result (λ made. ReadsDefinedFlags bytes.now made.code) }
    ensures few { IfOk result (λ made. AreFew made.code made.image.words) }
    ensures barriers { IfOk result (λ made. HasPlannedBarriers (marked made.private.slots) (length (threads_of bytes.now)) made.code made.image.words) }
    ensures plan { IfOk result (λ made. ArePlans (marked made.private.slots) made.code made.plan) }
    ensures summary { IfOk result (λ made. IsSummary (marked made.private.slots) (length (threads_of bytes.now)) made.code made.summary) }
    ensures refused { (fault : AnyFault) → result ≡ Err (File fault) → IsRefusedFor bytes.now fault }
{
    let elf = read_elf(alloc, bytes)?;
    let code = recover(alloc, &elf)?;
    check_flags(alloc, &code, &elf)?;
    let private = marks(alloc, &code, &elf)?;
    let planned = plan_code(alloc, &elf, &code, &private)?;
    let blocks = pass_blocks(alloc, &code, &private)?;
    let image = lay_out(alloc, &elf, &code, blocks.as_slice())?;
    let file = write_elf(alloc, &image)?;
    Ok(Translated {
        elf,
        code,
        private,
        image,
        file: Seq::of(file),
        plan: planned.plan,
        summary: planned.summary,
    })
}
