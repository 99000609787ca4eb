ghost use Rattle.std.specs.Prelude.{◌≡◌, ◌++◌, flat_map, option_copied, IfOk, OnOk, string_bytes};
ghost use Rattle.lasagne.specs.Plan.{block_text, fences_name, gap_line, in_turn, kind_letter, plan_text, planned_line, slot_behind, slot_line};

use crate::texts::push_summary;
use carry_spec::{BlockPlan, Summary};
use fence_plan::Gap;
use std::alloc::{AllocError, Global};
use std::fmt::Write;
use x64_syntax::{Slot, SlotKind};

/// The names of a gap's fences.
fn fences_name(gap: &Gap) -> &'static str
    ensures { result.now ≡ fences_name gap.now.fsc gap.now.frm gap.now.fww }
{
    match (gap.fsc, gap.frm, gap.fww) {
        (true, _, _) => "fsc",
        (false, false, false) => "none",
        (false, true, false) => "frm",
        (false, false, true) => "fww",
        (false, true, true) => "frm fww",
    }
}

fn push_gap(out: &mut String, gap: &Gap) -> Result<(), AllocError>
    ensures { OnOk result (string_bytes out.new ≡ string_bytes out.old ++ gap_line gap.now) }
{
    let name = fences_name(gap);
    writeln!(out, "gap {name}")
}

fn kind_letter(kind: SlotKind) -> &'static str
    ensures { result.now ≡ kind_letter kind }
{
    match kind {
        SlotKind::Read => "R",
        SlotKind::Write => "W",
        SlotKind::Locked => "L",
    }
}

fn push_slot(out: &mut String, slot: &Slot) -> Result<(), AllocError>
    ensures { OnOk result (string_bytes out.new ≡ string_bytes out.old ++ slot_line slot.now) }
{
    let Slot { address, kind } = *slot;
    let letter = kind_letter(kind);
    writeln!(out, "{address:x} {letter}")
}

/// Writes a gap, and the slot behind it where there is one.
fn push_turn(out: &mut String, gap: &Gap, slot: Option<&Slot>) -> Result<(), AllocError>
    ensures { OnOk result (string_bytes out.new ≡ string_bytes out.old ++ (gap_line gap.now ++ slot_behind (option_copied slot.entry))) }
{
    push_gap(out, gap)?;
    match slot {
        Some(slot) => push_slot(out, slot),
        None => Ok(()),
    }
}

/// Writes gaps and the slots between them, in turn.
#[tactic(auto, using(crate::proofs::PlanLemmas::turn))]
fn push_turns(out: &mut String, gaps: &[Gap], slots: &[Slot]) -> Result<(), AllocError>
    ensures { OnOk result (string_bytes out.new ≡ string_bytes out.old ++ in_turn gaps.now slots.now) }
{
    for (number, gap) in gaps.iter().enumerate() {
        push_turn(out, gap, slots.get(number))?;
    }
    Ok(())
}

fn push_block(out: &mut String, block: &BlockPlan) -> Result<(), AllocError>
    ensures { OnOk result (string_bytes out.new ≡ string_bytes out.old ++ block_text block.now) }
{
    let first = block.first;
    writeln!(out, "block {first:x}")?;
    push_turns(out, block.gaps.as_slice(), block.slots.as_slice())
}

fn push_blocks(out: &mut String, plan: &[BlockPlan]) -> Result<(), AllocError>
    ensures { OnOk result (string_bytes out.new ≡ string_bytes out.old ++ flat_map block_text plan.now) }
{
    for block in plan {
        push_block(out, block)?;
    }
    Ok(())
}

fn push_planned(alloc: Global, out: &mut String, s: Summary) -> Result<(), AllocError>
    ensures { OnOk result (string_bytes out.new ≡ string_bytes out.old ++ planned_line s) }
{
    out.push_str("planned ")?;
    push_summary(alloc, out, s)?;
    out.push_str("\n")?;
    Ok(())
}

/// The text that tells a plan: its blocks, each with its gaps and slots, and what is counted of them.
///
/// Takes time linear in the text's length.
pub fn plan_text(alloc: Global, plan: &[BlockPlan], s: Summary) -> Result<String, AllocError>
    ensures { IfOk result (λ text. string_bytes text ≡ plan_text plan.now s) }
{
    let mut text = String::new(alloc);
    push_blocks(&mut text, plan)?;
    push_planned(alloc, &mut text, s)?;
    Ok(text)
}
