ghost use Rattle.std.specs.Prelude.{◌≡◌, ◌≢◌, ℕ, ◌<◌, ◌≤◌, ◌^◌, true, false, if◌then◌else◌};
ghost use Rattle.ev_graph.specs.Memory.{allows};
ghost use Rattle.x64_syntax.specs.Operands.{bits};
ghost use Rattle.x64_table.specs.Answers.{answer, given, no_items};
ghost use Rattle.x64_table.specs.Operands.{IsSource};
ghost use Rattle.x64_table.specs.Outcomes.{alu_outcome, dec_outcome, inc_outcome, neg_outcome, not_value};
ghost use Rattle.x64_table.specs.Rows.{alu_row, becomes, changes, cmpxchg_row, combine_row, compare_row, fetches, leaves, xadd_row, xchg_row};
ghost use Rattle.x64_table.specs.State.{with_flags};
ghost use Rattle.x64_table.specs.Steps.{ends_change};
ghost use Rattle.x64_table.specs.View.{says, thread_of};

use crate::answer::XRow;
use crate::state::RAX;
use crate::step::{Loaded, Step, nothing};
use crate::values::{combine, complement, decrease, increase, negate};
use alu_width::Outcome;
use ev_graph::{RowItems, StartMemory};
use x64_syntax::{AluOp, Operand, Width};

impl<S: StartMemory> Step<'_, S> {
    /// ADD, OR, ADC, SBB, AND, SUB, XOR and CMP.
    #[tactic(auto, unfolding(crate::specs::Rows::alu_row))]
    pub(crate) fn alu(
        &self,
        op: AluOp,
        w: Width,
        to: &Operand,
        from: &Operand,
        locked: bool,
    ) -> XRow
        requires to { IsSource w to.now }
        requires from { IsSource w from.now }
        ensures { says result
            ≡ answer (given self.now.read self.now.input) no_items
            (alu_row (allows (S.cells self.now.memory.now)) self.now.place op w to.now from.now
            locked (thread_of self.now.thread)) }
    {
        match op {
            AluOp::Cmp => self.compare(op, w, to, from),
            AluOp::Add
            | AluOp::Or
            | AluOp::Adc
            | AluOp::Sbb
            | AluOp::And
            | AluOp::Sub
            | AluOp::Xor => self.combine(op, w, to, from, locked),
        }
    }

    #[tactic(auto, unfolding(crate::specs::Rows::combine_row))]
    fn combine(&self, op: AluOp, w: Width, to: &Operand, from: &Operand, locked: bool) -> XRow
        requires to { IsSource w to.now }
        requires from { IsSource w from.now }
        ensures { says result
            ≡ answer (given self.now.read self.now.input) no_items
            (combine_row (allows (S.cells self.now.memory.now)) self.now.place op w to.now
            from.now locked (thread_of self.now.thread)) }
    {
        let source = or_return!(self.fetch(nothing(), w, from));
        self.combine_with(source, op, w, to, locked)
    }

    fn combine_with(&self, source: Loaded, op: AluOp, w: Width, to: &Operand, locked: bool) -> XRow
        requires to { IsSource w to.now }
        requires source { source.value < 2 ^ bits w }
        ensures { says result
            ≡ answer (given self.now.read self.now.input) source.made
            (becomes (allows (S.cells self.now.memory.now)) self.now.place locked w to.now
            (thread_of self.now.thread) (λ a. alu_outcome op (bits w) a source.value
            (thread_of self.now.thread).flags)) }
    {
        let old = or_return!(self.begin_change(source.made, locked, w, to));
        let outcome = combine(op, w, old.value, source.value, self.flags());
        self.end_with(old.made, locked, w, to, outcome)
    }

    /// CMP, and TEST by the flags of AND.
    #[tactic(auto, unfolding(crate::specs::Rows::compare_row))]
    pub(crate) fn compare(&self, op: AluOp, w: Width, to: &Operand, from: &Operand) -> XRow
        requires to { IsSource w to.now }
        requires from { IsSource w from.now }
        ensures { says result
            ≡ answer (given self.now.read self.now.input) no_items
            (compare_row (allows (S.cells self.now.memory.now)) self.now.place op w to.now
            from.now (thread_of self.now.thread)) }
    {
        let first = or_return!(self.fetch(nothing(), w, to));
        self.compare_with(first, op, w, from)
    }

    fn compare_with(&self, first: Loaded, op: AluOp, w: Width, from: &Operand) -> XRow
        requires from { IsSource w from.now }
        requires first { first.value < 2 ^ bits w }
        ensures { says result
            ≡ answer (given self.now.read self.now.input) first.made
            (fetches (allows (S.cells self.now.memory.now)) self.now.place w from.now
            (thread_of self.now.thread) (λ b. leaves (with_flags (alu_outcome op (bits w)
            first.value b (thread_of self.now.thread).flags).flags
            (thread_of self.now.thread)))) }
    {
        let second = or_return!(self.fetch(first.made, w, from));
        let outcome = combine(op, w, first.value, second.value, self.flags());
        self.leave(second.made, self.thread.with_flags(outcome.flags))
    }

    /// The end of a change to an outcome, which gives the flags too.
    pub(crate) fn end_with(
        &self,
        made: RowItems,
        locked: bool,
        w: Width,
        to: &Operand,
        outcome: Outcome,
    ) -> XRow
        requires { IsSource w to.now }
        ensures { says result
            ≡ ends_change (allows (S.cells self.now.memory.now)) self.now.place
            (given self.now.read self.now.input) made locked w to.now
            (thread_of self.now.thread) outcome.value (with_flags outcome.flags
            (thread_of self.now.thread)) }
    {
        let after = self.thread.with_flags(outcome.flags);
        self.end_change(made, locked, w, to, outcome.value, &after)
    }

    /// INC.
    pub(crate) fn increase(&self, w: Width, to: &Operand, locked: bool) -> XRow
        requires { IsSource w to.now }
        ensures { says result
            ≡ answer (given self.now.read self.now.input) no_items
            (becomes (allows (S.cells self.now.memory.now)) self.now.place locked w to.now
            (thread_of self.now.thread) (λ a. inc_outcome (bits w) a
            (thread_of self.now.thread).flags)) }
    {
        let old = or_return!(self.begin_change(nothing(), locked, w, to));
        let outcome = increase(w, old.value, self.flags());
        self.end_with(old.made, locked, w, to, outcome)
    }

    /// DEC.
    pub(crate) fn decrease(&self, w: Width, to: &Operand, locked: bool) -> XRow
        requires { IsSource w to.now }
        ensures { says result
            ≡ answer (given self.now.read self.now.input) no_items
            (becomes (allows (S.cells self.now.memory.now)) self.now.place locked w to.now
            (thread_of self.now.thread) (λ a. dec_outcome (bits w) a
            (thread_of self.now.thread).flags)) }
    {
        let old = or_return!(self.begin_change(nothing(), locked, w, to));
        let outcome = decrease(w, old.value, self.flags());
        self.end_with(old.made, locked, w, to, outcome)
    }

    /// NEG.
    pub(crate) fn negate(&self, w: Width, to: &Operand) -> XRow
        requires { IsSource w to.now }
        ensures { says result
            ≡ answer (given self.now.read self.now.input) no_items
            (becomes (allows (S.cells self.now.memory.now)) self.now.place false w to.now
            (thread_of self.now.thread) (neg_outcome (bits w))) }
    {
        let old = or_return!(self.begin_change(nothing(), false, w, to));
        self.end_with(old.made, false, w, to, negate(w, old.value))
    }

    /// NOT.
    pub(crate) fn complement(&self, w: Width, to: &Operand, locked: bool) -> XRow
        requires { IsSource w to.now }
        ensures { says result
            ≡ answer (given self.now.read self.now.input) no_items
            (changes (allows (S.cells self.now.memory.now)) self.now.place locked w to.now
            (thread_of self.now.thread) (not_value (bits w)) (λ a. (thread_of self.now.thread))) }
    {
        let old = or_return!(self.begin_change(nothing(), locked, w, to));
        self.end_change(
            old.made,
            locked,
            w,
            to,
            complement(w, old.value),
            &self.thread,
        )
    }

    /// XCHG.
    #[tactic(auto, unfolding(crate::specs::Rows::xchg_row))]
    pub(crate) fn exchange(&self, w: Width, to: &Operand, from: &Operand, locked: bool) -> XRow
        requires to { IsSource w to.now }
        requires from { IsSource w from.now }
        ensures { says result
            ≡ answer (given self.now.read self.now.input) no_items
            (xchg_row (allows (S.cells self.now.memory.now)) self.now.place w to.now from.now
            locked (thread_of self.now.thread)) }
    {
        let old = or_return!(self.begin_change(nothing(), locked, w, to));
        let after = self.thread.with_operand(w, from, old.value);
        self.end_change(old.made, locked, w, to, self.held(w, from), &after)
    }

    /// XADD.
    #[tactic(auto, unfolding(crate::specs::Rows::xadd_row))]
    pub(crate) fn exchange_add(&self, w: Width, to: &Operand, from: &Operand, locked: bool) -> XRow
        requires to { IsSource w to.now }
        requires from { IsSource w from.now }
        ensures { says result
            ≡ answer (given self.now.read self.now.input) no_items
            (xadd_row (allows (S.cells self.now.memory.now)) self.now.place w to.now from.now
            locked (thread_of self.now.thread)) }
    {
        let old = or_return!(self.begin_change(nothing(), locked, w, to));
        let outcome = combine(AluOp::Add, w, old.value, self.held(w, from), self.flags());
        let after = self
            .thread
            .with_flags(outcome.flags)
            .with_operand(w, from, old.value);
        self.end_change(old.made, locked, w, to, outcome.value, &after)
    }

    /// CMPXCHG of memory, locked.
    #[tactic(auto, using(crate::proofs::OperandLemmas::source_address), unfolding(crate::specs::Rows::cmpxchg_row))]
    pub(crate) fn compare_exchange(&self, w: Width, to: &Operand, from: &Operand) -> XRow
        requires to { IsSource w to.now }
        requires from { IsSource w from.now }
        ensures { says result
            ≡ answer (given self.now.read self.now.input) no_items
            (cmpxchg_row (allows (S.cells self.now.memory.now)) self.now.place w to.now from.now
            (thread_of self.now.thread)) }
    {
        let address = self.address_of(to);
        let old = or_return!(self.lock(nothing(), w, address));
        let accumulator = self.thread.register(w, RAX);
        let outcome = combine(AluOp::Cmp, w, accumulator, old.value, self.flags());
        if accumulator == old.value {
            let made = self.unlock(old.made, w, address, self.held(w, from));
            self.leave(made, self.thread.with_flags(outcome.flags))
        } else {
            let after = self.thread.with_register(w, RAX, old.value);
            self.leave(old.made, after.with_flags(outcome.flags))
        }
    }
}
