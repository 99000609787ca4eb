ghost use Rattle.std.specs.Prelude.{◌≡◌, ◌≢◌, ℕ, ◌<◌, ◌≤◌, ◌^◌, true, false, if◌then◌else◌};
ghost use Rattle.ev_graph.specs.Memory.{allows};
ghost use Rattle.x64_syntax.specs.Operands.{bits};
ghost use Rattle.x64_table.specs.Answers.{answer, given, no_items};
ghost use Rattle.x64_table.specs.Operands.{IsSource};
ghost use Rattle.x64_table.specs.Outcomes.{product_flags, turn_outcome};
ghost use Rattle.x64_table.specs.Rows.{becomes, div_row, fetches, imul_row, leaves, mul_row, puts, shift_row};
ghost use Rattle.x64_table.specs.State.{with_flags};
ghost use Rattle.x64_table.specs.View.{says, thread_of};
ghost use Rattle.alu_width.specs.Products.{product};

use crate::answer::XRow;
use crate::state::{RAX, upper};
use crate::step::{Loaded, Step, nothing};
use crate::values::{divide, multiply, product_flags, quotient_flags, turn};
use ev_graph::{RowItems, StartMemory, TrapKind};
use x64_syntax::{Operand, ShiftOp, Width};

impl<S: StartMemory> Step<'_, S> {
    /// MUL (`signed` false) and IMUL (true) with one operand.
    #[tactic(auto, unfolding(crate::specs::Rows::mul_row))]
    pub(crate) fn multiply(&self, signed: bool, w: Width, from: &Operand) -> XRow
        requires { IsSource w from.now }
        ensures { says result
            ≡ answer (given self.now.read self.now.input) no_items
            (mul_row (allows (S.cells self.now.memory.now)) self.now.place signed w from.now
            (thread_of self.now.thread)) }
    {
        let factor = or_return!(self.fetch(nothing(), w, from));
        let product = multiply(signed, w, self.thread.register(w, RAX), factor.value);
        let after = self.thread.with_double(w, product.low, product.high);
        self.leave(
            factor.made,
            after.with_flags(product_flags(product, self.flags())),
        )
    }

    /// DIV (`signed` false) and IDIV (true).
    #[tactic(auto, unfolding(crate::specs::Rows::div_row))]
    pub(crate) fn divide(&self, signed: bool, w: Width, from: &Operand) -> XRow
        requires { IsSource w from.now }
        ensures { says result
            ≡ answer (given self.now.read self.now.input) no_items
            (div_row (allows (S.cells self.now.memory.now)) self.now.place signed w from.now
            (thread_of self.now.thread)) }
    {
        let divisor = or_return!(self.fetch(nothing(), w, from));
        let high = self.thread.register(w, upper(w));
        let low = self.thread.register(w, RAX);
        match divide(signed, w, high, low, divisor.value) {
            Ok(answer) => {
                let after = self
                    .thread
                    .with_double(w, answer.quotient, answer.remainder);
                self.leave(divisor.made, after.with_flags(quotient_flags(self.flags())))
            }
            Err(_) => self.trap(divisor.made, TrapKind::Divide),
        }
    }

    /// IMUL with two or three operands.
    #[tactic(auto, unfolding(crate::specs::Rows::imul_row))]
    pub(crate) fn multiply_into(
        &self,
        w: Width,
        to: &Operand,
        first: &Operand,
        second: &Operand,
    ) -> XRow
        requires to { IsSource w to.now }
        requires first { IsSource w first.now }
        requires second { IsSource w second.now }
        ensures { says result
            ≡ answer (given self.now.read self.now.input) no_items
            (imul_row (allows (S.cells self.now.memory.now)) self.now.place w to.now first.now
            second.now (thread_of self.now.thread)) }
    {
        let factor = or_return!(self.fetch(nothing(), w, first));
        self.multiply_with(factor, w, to, second)
    }

    fn multiply_with(&self, first: Loaded, w: Width, to: &Operand, second: &Operand) -> XRow
        requires to { IsSource w to.now }
        requires first { first.value < 2 ^ bits w }
        requires second { IsSource w second.now }
        ensures { says result
            ≡ answer (given self.now.read self.now.input) first.made
            (fetches (allows (S.cells self.now.memory.now)) self.now.place w second.now
            (thread_of self.now.thread) (λ b. leaves (with_flags (product_flags
            (product true (bits w) first.value b) (thread_of self.now.thread).flags) (puts w
            to.now (product true (bits w) first.value b).low (thread_of self.now.thread))))) }
    {
        let factor = or_return!(self.fetch(first.made, w, second));
        let product = multiply(true, w, first.value, factor.value);
        let after = self.thread.with_operand(w, to, product.low);
        self.leave(
            factor.made,
            after.with_flags(product_flags(product, self.flags())),
        )
    }

    /// Shifts and rotates.
    #[tactic(auto, unfolding(crate::specs::Rows::shift_row))]
    pub(crate) fn shift(&self, op: ShiftOp, w: Width, to: &Operand, by: &Operand) -> XRow
        requires to { IsSource w to.now }
        requires by { IsSource Width.Byte by.now }
        ensures { says result
            ≡ answer (given self.now.read self.now.input) no_items
            (shift_row (allows (S.cells self.now.memory.now)) self.now.place op w to.now by.now
            (thread_of self.now.thread)) }
    {
        let count = or_return!(self.fetch(nothing(), Width::Byte, by));
        self.shift_by(count.made, op, w, to, count.value as u8)
    }

    fn shift_by(&self, made: RowItems, op: ShiftOp, w: Width, to: &Operand, count: u8) -> XRow
        requires { IsSource w to.now }
        ensures { says result
            ≡ answer (given self.now.read self.now.input) made
            (becomes (allows (S.cells self.now.memory.now)) self.now.place false w to.now
            (thread_of self.now.thread) (λ a. turn_outcome op (bits w) a count
            (thread_of self.now.thread).flags)) }
    {
        let old = or_return!(self.begin_change(made, false, w, to));
        let outcome = turn(op, w, old.value, count, self.flags());
        self.end_with(old.made, false, w, to, outcome)
    }
}
