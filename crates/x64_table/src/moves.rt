ghost use Rattle.std.specs.Prelude.{◌≡◌, ◌≢◌, ℕ, ◌<◌, ◌≤◌, ◌^◌, true, false, if◌then◌else◌};
ghost use Rattle.ev_graph.specs.Memory.{allows};
ghost use Rattle.x64_syntax.specs.Operands.{bits};
ghost use Rattle.x64_table.specs.Answers.{answer, given, no_items};
ghost use Rattle.word_arith.specs.Bits.{bit};
ghost use Rattle.word_arith.specs.Signed.{sign_extend};
ghost use Rattle.alu_width.specs.Conditions.{condition};
ghost use Rattle.x64_syntax.specs.Formed.{IsCondition};
ghost use Rattle.x64_table.specs.Operands.{IsSource};
ghost use Rattle.x64_table.specs.Outcomes.{filled};
ghost use Rattle.x64_table.specs.Rows.{address_of, fetches, half, holds, leaves, puts, stores};
ghost use Rattle.x64_table.specs.State.{rax, register, set, upper};
ghost use Rattle.x64_table.specs.View.{says, thread_of};

use crate::answer::XRow;
use crate::state::{RAX, half, upper};
use crate::step::{Step, nothing};
use crate::values::{extend, fill};
use alu_width::cond;
use ev_graph::StartMemory;
use x64_syntax::{Cond, Operand, Width};

impl<S: StartMemory> Step<'_, S> {
    /// MOV.
    pub(crate) fn move_value(&self, w: Width, to: &Operand, from: &Operand) -> XRow
        requires to { IsSource w to.now }
        requires from { IsSource w from.now }
        ensures { says result
            ≡ answer (given self.now.read self.now.input) no_items
            (fetches (allows (S.cells self.now.memory.now)) self.now.place w from.now
            (thread_of self.now.thread) (λ v. stores (allows (S.cells self.now.memory.now))
            self.now.place w to.now (thread_of self.now.thread) v (thread_of self.now.thread))) }
    {
        let source = or_return!(self.fetch(nothing(), w, from));
        self.store(source.made, w, to, &self.thread, source.value, &self.thread)
    }

    /// LEA.
    #[tactic(auto, using(crate::proofs::OperandLemmas::source_address))]
    pub(crate) fn load_address(&self, w: Width, to: &Operand, from: &Operand) -> XRow
        requires to { IsSource w to.now }
        requires from { IsSource w from.now }
        ensures { says result
            ≡ answer (given self.now.read self.now.input) no_items (leaves (puts w to.now
            (address_of from.now (thread_of self.now.thread)) (thread_of self.now.thread))) }
    {
        let address = self.address_of(from);
        self.leave(nothing(), self.thread.with_operand(w, to, address))
    }

    /// MOVZX, from a source of width `from_width`.
    pub(crate) fn move_zero_extended(
        &self,
        w: Width,
        from_width: Width,
        to: &Operand,
        from: &Operand,
    ) -> XRow
        requires to { IsSource w to.now }
        requires from { IsSource from_width from.now }
        ensures { says result
            ≡ answer (given self.now.read self.now.input) no_items
            (fetches (allows (S.cells self.now.memory.now)) self.now.place from_width from.now
            (thread_of self.now.thread) (λ a. leaves
            (puts w to.now a (thread_of self.now.thread)))) }
    {
        let source = or_return!(self.fetch(nothing(), from_width, from));
        self.leave(source.made, self.thread.with_operand(w, to, source.value))
    }

    /// MOVSX and MOVSXD, from a source of width `from_width`.
    pub(crate) fn move_sign_extended(
        &self,
        w: Width,
        from_width: Width,
        to: &Operand,
        from: &Operand,
    ) -> XRow
        requires to { IsSource w to.now }
        requires from { IsSource from_width from.now }
        ensures { says result
            ≡ answer (given self.now.read self.now.input) no_items
            (fetches (allows (S.cells self.now.memory.now)) self.now.place from_width from.now
            (thread_of self.now.thread) (λ a. leaves (puts w to.now
            (sign_extend (bits w) (bits from_width) a) (thread_of self.now.thread)))) }
    {
        let source = or_return!(self.fetch(nothing(), from_width, from));
        let value = extend(w, from_width, source.value);
        self.leave(source.made, self.thread.with_operand(w, to, value))
    }

    /// Whether a condition holds.
    pub(crate) fn meets(&self, when: Cond) -> bool
        requires { IsCondition when }
        ensures { result ≡ condition when.code (thread_of self.now.thread).flags }
    {
        cond(when.code, self.flags())
    }

    /// SETcc.
    pub(crate) fn set_condition(&self, when: Cond, to: &Operand) -> XRow
        requires when { IsCondition when }
        requires to { IsSource Width.Byte to.now }
        ensures { says result
            ≡ answer (given self.now.read self.now.input) no_items
            (stores (allows (S.cells self.now.memory.now)) self.now.place Width.Byte to.now
            (thread_of self.now.thread) (bit (condition when.code
            (thread_of self.now.thread).flags)) (thread_of self.now.thread)) }
    {
        let value = u64::from(self.meets(when));
        self.store(
            nothing(),
            Width::Byte,
            to,
            &self.thread,
            value,
            &self.thread,
        )
    }

    /// CMOVcc, which reads its source in any case.
    pub(crate) fn move_on_condition(
        &self,
        when: Cond,
        w: Width,
        to: &Operand,
        from: &Operand,
    ) -> XRow
        requires when { IsCondition when }
        requires to { IsSource w to.now }
        requires from { IsSource w from.now }
        ensures { says result
            ≡ answer (given self.now.read self.now.input) no_items
            (fetches (allows (S.cells self.now.memory.now)) self.now.place w from.now
            (thread_of self.now.thread) (λ v. leaves (puts w to.now (if condition when.code
            (thread_of self.now.thread).flags then v else holds w to.now
            (thread_of self.now.thread)) (thread_of self.now.thread)))) }
    {
        let source = or_return!(self.fetch(nothing(), w, from));
        let value = if self.meets(when) {
            source.value
        } else {
            self.held(w, to)
        };
        self.leave(source.made, self.thread.with_operand(w, to, value))
    }

    /// CBW, CWDE and CDQE.
    pub(crate) fn widen(&self, w: Width) -> XRow
        ensures { says result
            ≡ answer (given self.now.read self.now.input) no_items (leaves (set w rax
            (sign_extend (bits w) (bits (half w)) (register (half w) rax
            (thread_of self.now.thread))) (thread_of self.now.thread))) }
    {
        let value = extend(w, half(w), self.thread.register(half(w), RAX));
        self.leave(nothing(), self.thread.with_register(w, RAX, value))
    }

    /// CWD, CDQ and CQO.
    pub(crate) fn fill_sign(&self, w: Width) -> XRow
        ensures { says result
            ≡ answer (given self.now.read self.now.input) no_items (leaves (set w (upper w)
            (filled (bits w) (register w rax (thread_of self.now.thread)))
            (thread_of self.now.thread))) }
    {
        let value = fill(w, self.thread.register(w, RAX));
        self.leave(nothing(), self.thread.with_register(w, upper(w), value))
    }
}
