ghost use Rattle.std.specs.Prelude.{◌≡◌, ◌++◌, ◌↔◌, ℕ, IfOk, OnOk, IsTrue, map};
ghost use Rattle.std.specs.List.{flat_map};
ghost use Rattle.ev_graph.specs.Places.{StandsIn};
ghost use Rattle.elf_read.specs.Elf.{IsProgram, parts_of};
ghost use Rattle.x64_syntax.specs.Slots.{listed};
ghost use Rattle.code_at.specs.Code.{program_of};
ghost use Rattle.cfg_walk.specs.Code.{IsCodeOf};
ghost use Rattle.frame_marks.specs.Lists.{address_of, is_in_frame, is_locked, is_private, kept, kept_by, kept_of, AreKept, AreOrdered, HasFrames};
ghost use Rattle.frame_marks.specs.Marks.{ArePrivate};

use crate::bodies::Bodies;
use crate::frames::Frames;
use crate::operands::{RBP, RSP, is_beside};
use cfg_walk::Code;
use elf_read::Elf;
use ev_graph::NoMemory;
use graph_reach::{Backwards, Nodes, Sources, first_sources};
use std::alloc::Global;
use x64_syntax::{InstrSlot, InstrSlots, List, Marks, Placed, Slot, SlotKind, SlotPlace, slots_of};

/// What is known of the functions whose body has an instruction: whether some of them exposes its
/// frame, and whether some of them has no frame pointer.
#[derive(Clone, Copy)]
struct Owners {
    exposed: bool,
    pointerless: bool,
}

/// Whether an access is locked.
fn is_locked(kind: SlotKind) -> bool
    ensures { result ≡ is_locked kind }
{
    match kind {
        SlotKind::Locked => true,
        SlotKind::Read | SlotKind::Write => false,
    }
}

/// Whether an access is one to the frame of each function whose body has it.
fn is_in_frame(pointerless: bool, place: SlotPlace) -> bool
    ensures { result ≡ is_in_frame pointerless place }
{
    match place {
        SlotPlace::Stack => true,
        SlotPlace::Operand(m) => is_beside(RSP, m) || !pointerless && is_beside(RBP, m),
    }
}

/// Whether an access is private.
fn is_private(owners: Owners, access: InstrSlot) -> bool
    ensures { result ≡ is_private owners.exposed owners.pointerless access }
{
    !is_locked(access.kind) && !owners.exposed && is_in_frame(owners.pointerless, access.place)
}

/// Puts the slot of an access behind the others, if the access is private.
fn push_kept(
    into: &mut Vec<Slot>,
    owners: Owners,
    address: u64,
    access: InstrSlot,
) -> Result<(), NoMemory>
    ensures { OnOk result (into.new.items ≡ into.old.items ++ kept owners.exposed owners.pointerless address access) }
{
    if is_private(owners, access) {
        Ok(into.push(access.at(address))?)
    } else {
        Ok(())
    }
}

/// Puts the private ones of some accesses behind the others.
fn push_kept_of(
    into: &mut Vec<Slot>,
    owners: Owners,
    address: u64,
    slots: InstrSlots,
) -> Result<(), NoMemory>
    ensures { OnOk result (into.new.items ≡ into.old.items ++ flat_map (kept owners.exposed owners.pointerless address) (listed slots)) }
{
    match slots {
        InstrSlots::Empty => Ok(()),
        InstrSlots::One(access) => push_kept(into, owners, address, access),
        InstrSlots::Two(first, second) => {
            push_kept(into, owners, address, first)?;
            push_kept(into, owners, address, second)
        }
    }
}

/// Puts the private slots of an instruction behind the others.
fn push_private(
    into: &mut Vec<Slot>,
    p: &Placed,
    exposed: &Sources,
    pointerless: &Sources,
) -> Result<(), NoMemory>
    ensures { OnOk result (into.new.items ≡ into.old.items ++ kept_by exposed.now pointerless.now p.now) }
{
    let owners = Owners {
        exposed: exposed.of(p.address).is_some(),
        pointerless: pointerless.of(p.address).is_some(),
    };
    push_kept_of(into, owners, p.address, slots_of(&p.instr, p.flow))
}

/// The private slots, where these sources tell of the instructions that are in the body of a
/// function that exposes its frame, and of one that has no frame pointer.
fn private_slots(
    alloc: Global,
    placed: &[Placed],
    exposed: &Sources,
    pointerless: &Sources,
) -> Result<Vec<Slot>, NoMemory>
    ensures { IfOk result (λ v. v.items ≡ flat_map (kept_by exposed.now pointerless.now) placed.now) }
{
    let mut slots = Vec::new(alloc);
    for p in placed {
        push_private(&mut slots, p, exposed, pointerless)?;
    }
    Ok(slots)
}

/// The addresses of the instructions.
fn nodes_of(alloc: Global, placed: &[Placed]) -> Result<Nodes, NoMemory>
    ensures { IfOk result (λ nodes. (a : ℕ) → StandsIn nodes a ↔ StandsIn (map address_of placed.now) a) }
{
    let mut nodes = Nodes::new(alloc);
    for p in placed {
        nodes.add(p.address)?;
    }
    Ok(nodes)
}

/// Looks for what spoils frames, in the bodies of these instructions.
fn frames_of(alloc: Global, placed: &[Placed], bodies: &Bodies) -> Result<Frames, NoMemory>
    requires { bodies.now ≡ placed.now }
    ensures { IfOk result (HasFrames placed.now) }
{
    let nodes = nodes_of(alloc, placed)?;
    let back = Backwards::of(alloc, bodies, &nodes)?;
    Frames::of(alloc, placed, &back)
}

/// The slots that are private by what was found of these functions.
fn kept_slots(
    alloc: Global,
    placed: &[Placed],
    functions: &[u64],
    bodies: &Bodies,
    frames: &Frames,
) -> Result<Vec<Slot>, NoMemory>
    requires ordered { AreOrdered placed.now }
    requires bodies { bodies.now ≡ placed.now }
    ensures { IfOk result (λ v. AreKept placed.now functions.now frames.now v.items) }
{
    let exposed = first_sources(alloc, bodies, &frames.exposed(alloc, placed, functions)?)?;
    let pointerless = first_sources(
        alloc,
        bodies,
        &frames.pointerless(alloc, placed, functions)?,
    )?;
    private_slots(alloc, placed, &exposed, &pointerless)
}

/// The private slots of a program, by address, an instruction's read before its write.
///
/// A slot is private where it is not locked and, in each function whose body has it, is an access
/// to the function's own frame, which that function does not expose. `code` is what `recover`
/// gives for `elf`. Takes time n log n in the instructions, however many functions share them.
pub fn marks(alloc: Global, code: &Code, elf: &Elf) -> Result<Marks, NoMemory>
    requires program { IsProgram (parts_of elf.now) elf.now.threads }
    requires code { IsCodeOf (program_of elf.now) code.now }
    ensures { IfOk result (λ marks. ArePrivate (program_of elf.now) marks.slots) }
{
    let placed = code.placed.as_slice();
    let bodies = Bodies::over(placed);
    let frames = frames_of(alloc, placed, &bodies)?;
    let functions = code.functions.as_slice();
    let slots = kept_slots(alloc, placed, functions, &bodies, &frames)?;
    Ok(Marks {
        slots: List::of(slots),
    })
}
