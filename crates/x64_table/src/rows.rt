ghost use Rattle.std.specs.Prelude.{◌≡◌, ℕ, ◌<◌, ◌^◌, ◌+◌, ◌%◌};
ghost use Rattle.ev_graph.specs.Memory.{allows};
ghost use Rattle.x64_syntax.specs.Formed.{IsFormed};
ghost use Rattle.x64_table.specs.Answers.{answer, given, no_items};
ghost use Rattle.x64_table.specs.Rows.{acts, row_of};
ghost use Rattle.x64_table.specs.View.{says, thread_of};

use crate::answer::XRow;
use crate::state::X64State;
use crate::step::{Step, nothing};
use ev_graph::{StartMemory, TrapKind};
use x64_syntax::{AluOp, Flow, Instr, Width};

/// What an instruction does: the items that it makes, and how it leaves.
///
/// `length` is the instruction's length in bytes, and `flow` how control goes on after it. `memory` has the thread's
/// stacks too. `read` and `input` are the values of the instruction's read and input, where it has them; a value that
/// does not fit counts by its low bytes. Accesses have the event id of thread 0 and index 0.
///
/// `WantsRead` comes exactly where the instruction makes a read that is allowed and `read` is `None`. `WantsInput` comes
/// exactly where it takes an input, `input` is `None`, and `WantsRead` does not come. An access that is not allowed is
/// not made and ends the thread as `BadAccess`. Indirect calls, and indirect jumps whose flow is not `TableJump`, have no
/// row: they answer the end `BadJump`.
#[tactic(auto, unfolding(crate::specs::Rows::row_of, crate::specs::View::thread_of))]
pub fn row<S: StartMemory>(
    instr: &Instr,
    length: u8,
    flow: Flow,
    state: &X64State,
    memory: &S,
    read: Option<u64>,
    input: Option<u64>,
) -> XRow
    requires { IsFormed instr.now }
    ensures { says result
        ≡ answer (given read input) no_items (row_of (allows (S.cells memory.now)) instr.now length flow (thread_of state.now)) }
{
    let step = Step {
        memory,
        place: state.at,
        thread: behind(state, length),
        read,
        input,
    };
    step.act(instr, flow)
}

/// The state with the address after an instruction.
#[tactic(auto, unfolding(crate::specs::View::thread_of))]
fn behind(state: &X64State, length: u8) -> X64State
    ensures { thread_of result ≡ record (thread_of state.now) {
      at =
          ((thread_of state.now).at + length) % 2 ^ 64;
    } }
{
    X64State {
        at: state.at.wrapping_add(u64::from(length)),
        ..*state
    }
}

impl<S: StartMemory> Step<'_, S> {
    /// The acts of an instruction.
    #[tactic(auto, using(crate::proofs::OperandLemmas::pair_sources), unfolding(crate::specs::Rows::acts))]
    fn act(&self, instr: &Instr, flow: Flow) -> XRow
        requires { IsFormed instr.now }
        ensures { says result
            ≡ answer (given self.now.read self.now.input) no_items
            (acts (allows (S.cells self.now.memory.now)) self.now.place instr.now flow (thread_of self.now.thread)) }
    {
        match instr {
            Instr::Alu(op, w, to, from, locked) => self.alu(*op, *w, to, from, *locked),
            Instr::Test(w, to, from) => self.compare(AluOp::And, *w, to, from),
            Instr::Xchg(w, to, from, locked) => self.exchange(*w, to, from, *locked),
            Instr::Mov(w, to, from) => self.move_value(*w, to, from),
            Instr::Lea(w, to, from) => self.load_address(*w, to, from),
            Instr::MovZx(w, v, to, from) => self.move_zero_extended(*w, *v, to, from),
            Instr::MovSx(w, v, to, from) => self.move_sign_extended(*w, *v, to, from),
            Instr::MovSxd(to, from) => self.move_sign_extended(Width::Quad, Width::Long, to, from),
            Instr::Push(from) => self.push(from),
            Instr::Pop(to) => self.pop(to),
            Instr::Leave => self.leave_frame(),
            Instr::Ret => self.return_from(nothing(), &self.thread),
            Instr::Call(displacement) => self.call(flow, *displacement),
            Instr::Jmp(displacement) => self.jump(flow, *displacement),
            Instr::CallInd(_) => self.trap(nothing(), TrapKind::BadJump),
            Instr::JmpInd(to) => self.jump_indirect(flow, to),
            Instr::Jcc(when, displacement) => self.jump_on_condition(*when, *displacement),
            Instr::SetCc(when, to) => self.set_condition(*when, to),
            Instr::CmovCc(when, w, to, from) => self.move_on_condition(*when, *w, to, from),
            Instr::Inc(w, to, locked) => self.increase(*w, to, *locked),
            Instr::Dec(w, to, locked) => self.decrease(*w, to, *locked),
            Instr::Not(w, to, locked) => self.complement(*w, to, *locked),
            Instr::Neg(w, to) => self.negate(*w, to),
            Instr::Mul(w, from) => self.multiply(false, *w, from),
            Instr::ImulOne(w, from) => self.multiply(true, *w, from),
            Instr::Div(w, from) => self.divide(false, *w, from),
            Instr::Idiv(w, from) => self.divide(true, *w, from),
            Instr::ImulTwo(w, to, from) => self.multiply_into(*w, to, to, from),
            Instr::ImulThree(w, to, from, by) => self.multiply_into(*w, to, from, by),
            Instr::Shift(op, w, to, by) => self.shift(*op, *w, to, by),
            Instr::Widen(w) => self.widen(*w),
            Instr::SignFill(w) => self.fill_sign(*w),
            Instr::Cmpxchg(w, to, from, _) => self.compare_exchange(*w, to, from),
            Instr::Xadd(w, to, from, locked) => self.exchange_add(*w, to, from, *locked),
            Instr::Nop | Instr::Pause | Instr::Endbr => self.leave(nothing(), self.thread),
            Instr::Mfence => self.fence(),
            Instr::Ud2 => self.trap(nothing(), TrapKind::Invalid),
        }
    }
}
