ghost use Rattle.std.specs.Prelude.{◌≡◌, ◌≤◌, ◌^◌, true, ◌++◌, IfOk, OnOk, flat_map};
ghost use Rattle.x64_syntax.specs.Formed.{IsFormed, IsFlowOf};
ghost use Rattle.x64_syntax.specs.Slots.{placed_slots};
ghost use Rattle.limm_ir.specs.Conditions.{IsSelectable};
ghost use Rattle.limm_ir.specs.Costs.{cost_of, fenced_cost};
ghost use Rattle.lift_alu.specs.Built.{is_lifted};
ghost use Rattle.lift_alu.specs.Formulas.{done};
ghost use Rattle.lift_alu.specs.Lifted.{lifts_with};
ghost use Rattle.lift_alu.specs.Marks.{step_slots, step_fences, instr_fences};
ghost use Rattle.lift_alu.specs.Meant.{after, end_of, most_words, LiftsInstr, SetsFrom};
ghost use Rattle.lift_alu.specs.SoFar.{so_far};

use crate::access::Site;
use crate::builder::Builder;
use crate::small_steps::SmallSteps;
use ev_graph::NoMemory;
use limm_ir::{IrFence, IrStep};
use std::alloc::Global;
use x64_syntax::{AluOp, Flow, Instr, Placed};

/// The steps of one instruction, which do what it does. Their temporaries begin at `temps`.
///
/// Where it is RET, or a jump to a listed function, the second of these has the return address; where
/// it is Jcc, the last has its condition.
pub fn lift_instr(alloc: Global, placed: &Placed, temps: u32) -> Result<SmallSteps, NoMemory>
    requires formed { IsFormed placed.now.instr }
    requires lifted { is_lifted placed.now.instr ≡ true }
    requires flow { IsFlowOf placed.now.instr placed.now.flow }
    requires few { temps ≤ 2 ^ 24 }
    ensures meaning { IfOk result (λ xs. LiftsInstr 62 placed.now temps xs) }
    ensures few { IfOk result (λ xs. cost_of fenced_cost xs ≤ most_words placed.now) }
    ensures selectable { IfOk result (λ xs. IsSelectable xs (end_of placed.now temps)) }
    ensures own { IfOk result (λ xs. SetsFrom temps xs) }
    ensures slots { IfOk result (λ xs. flat_map step_slots xs ≡ placed_slots placed.now) }
    ensures fences { IfOk result (λ xs. flat_map step_fences xs ≡ instr_fences placed.now.instr) }
{
    let lifted = lift_table(alloc, placed, temps)?;
    Ok(lifted)
}

/// The steps of one instruction, as the table has them.
fn lift_table(alloc: Global, placed: &Placed, temps: u32) -> Result<SmallSteps, NoMemory>
    ensures { IfOk result (λ xs. xs ≡ lifts_with placed.now.address (after placed.now) placed.now.flow placed.now.instr temps) }
{
    let site = Site {
        at: placed.address,
        after: placed.address.wrapping_add(u64::from(placed.length)),
    };
    let mut builder = Builder::new(alloc, temps);
    builder.lift(site, placed.flow, &placed.instr)?;
    let Builder { steps, next: _ } = builder;
    Ok(steps)
}

impl Builder {
    /// Builds the steps of an instruction with its flow.
    #[tactic(auto, unfolding(crate::specs::Lifted::lifts, crate::specs::Lifted::lifts_with))]
    fn lift(&mut self, site: Site, flow: Flow, instr: &Instr) -> Result<(), NoMemory>
        ensures { OnOk result (so_far self.old (lifts_with site.at site.after flow instr.now) ≡ so_far self.new done) }
    {
        match instr {
            Instr::Alu(_, _, _, _, true)
            | Instr::Xchg(_, _, _, true)
            | Instr::Inc(_, _, true)
            | Instr::Dec(_, _, true)
            | Instr::Not(_, _, true)
            | Instr::Xadd(_, _, _, true)
            | Instr::Cmpxchg(_, _, _, _) => self.lift_locked(site, instr),
            Instr::Alu(op, width, to, from, false) => self.lift_alu(site, *op, *width, to, from),
            Instr::Test(width, to, from) => self.compare(site, AluOp::And, *width, to, from),
            Instr::Xchg(width, to, from, false) => self.exchange(site, *width, to, from),
            Instr::Mov(width, to, from) => self.copy(site, *width, to, from),
            Instr::Lea(width, to, from) => self.take_address(site, *width, to, from),
            Instr::MovZx(width, narrow, to, from) => self.widen_by_zeros(
                site, *width, *narrow, to, from,
            ),
            Instr::MovSx(width, narrow, to, from) => self.widen_by_sign(
                site, *width, *narrow, to, from,
            ),
            Instr::MovSxd(to, from) => self.widen_long(site, to, from),
            Instr::Push(from) => self.push_value(site, from),
            Instr::Pop(to) => self.pop(site, to),
            Instr::Leave => self.leave_frame(site),
            Instr::Ret => self.pop_return(site),
            Instr::SetCc(condition, to) => self.set_condition(site, *condition, to),
            Instr::CmovCc(condition, width, to, from) => self.copy_if(
                site, *condition, *width, to, from,
            ),
            Instr::Inc(width, to, false) => self.increment(site, *width, to),
            Instr::Dec(width, to, false) => self.decrement(site, *width, to),
            Instr::Not(width, to, false) => self.invert(site, *width, to),
            Instr::Neg(width, to) => self.negate(site, *width, to),
            Instr::Xadd(width, to, from, false) => self.add_exchanged(site, *width, to, from),
            Instr::Shift(op, width, to, by) => self.shift(site, *op, *width, to, by),
            Instr::Widen(width) => self.widen_accumulator(site, *width),
            Instr::SignFill(width) => self.fill_with_sign(site, *width),
            Instr::Mul(width, from) => self.multiply(site, false, *width, from),
            Instr::ImulOne(width, from) => self.multiply(site, true, *width, from),
            Instr::Div(width, from) => self.divide(site, false, *width, from),
            Instr::Idiv(width, from) => self.divide(site, true, *width, from),
            Instr::ImulTwo(width, to, from) => self.multiply_into(site, *width, to, to, from),
            Instr::ImulThree(width, to, from, by) => self.multiply_into(site, *width, to, from, by),
            Instr::Mfence => self.push(IrStep::Fence(IrFence::Fsc)),
            Instr::Call(_) => self.call(site, flow),
            Instr::Jmp(_) => self.jump(site, flow),
            Instr::Jcc(condition, _) => self.keep_condition(*condition),
            Instr::CallInd(_)
            | Instr::JmpInd(_)
            | Instr::Nop
            | Instr::Pause
            | Instr::Endbr
            | Instr::Ud2 => Ok(()),
        }
    }
}
