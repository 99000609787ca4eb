ghost use Rattle.std.specs.Prelude.{◌≡◌, ◌≢◌, ℕ, if◌then◌else◌, ◌<◌, ◌≤◌, ◌^◌};
ghost use Rattle.ev_graph.specs.Memory.{allows};
ghost use Rattle.x64_syntax.specs.Operands.{bits};
ghost use Rattle.behavior.specs.Acts.{puts_out, takes_in, writes};
ghost use Rattle.alu_width.specs.Conditions.{condition};
ghost use Rattle.x64_syntax.specs.Formed.{IsCondition};
ghost use Rattle.x64_table.specs.Answers.{answer, given, no_items};
ghost use Rattle.x64_table.specs.Operands.{IsAddress, IsSource};
ghost use Rattle.x64_table.specs.Rows.{call_row, called, jmp_row, leave_row, leaves, pop_row, push_row, returns, table_row};
ghost use Rattle.x64_table.specs.State.{below_stack, jumped, pushed, rax, rdi, register, set};
ghost use Rattle.x64_table.specs.View.{says, thread_of};

use crate::answer::{Next, XRow};
use crate::state::{RAX, RBP, RDI, RSP, X64State};
use crate::step::{Step, nothing};
use ev_graph::{RowItems, StartMemory, TrapKind};
use x64_syntax::{Cond, Flow, Operand, Width};

impl<S: StartMemory> Step<'_, S> {
    /// PUSH.
    #[tactic(auto, unfolding(crate::specs::Rows::push_row))]
    pub(crate) fn push(&self, from: &Operand) -> XRow
        requires { IsSource Width.Quad from.now }
        ensures { says result
            ≡ answer (given self.now.read self.now.input) no_items
            (push_row (allows (S.cells self.now.memory.now)) self.now.place from.now
            (thread_of self.now.thread)) }
    {
        let source = or_return!(self.fetch(nothing(), Width::Quad, from));
        self.push_value(source.made, source.value)
    }

    fn push_value(&self, made: RowItems, value: u64) -> XRow
        ensures { says result
            ≡ answer (given self.now.read self.now.input) made
            (writes (allows (S.cells self.now.memory.now)) self.now.place
            (below_stack (thread_of self.now.thread)) 8 value
            (leaves (pushed (thread_of self.now.thread)))) }
    {
        let made = or_return!(self.write(made, Width::Quad, self.thread.below_stack(), value));
        self.leave(made, self.thread.pushed())
    }

    /// POP.
    #[tactic(auto, unfolding(crate::specs::Rows::pop_row))]
    pub(crate) fn pop(&self, to: &Operand) -> XRow
        requires { IsSource Width.Quad to.now }
        ensures { says result
            ≡ answer (given self.now.read self.now.input) no_items
            (pop_row (allows (S.cells self.now.memory.now)) self.now.place to.now
            (thread_of self.now.thread)) }
    {
        let top = self.thread.register(Width::Quad, RSP);
        let read = or_return!(self.read(nothing(), Width::Quad, top));
        let after = self.thread.popped();
        self.store(read.made, Width::Quad, to, &after, read.value, &after)
    }

    /// LEAVE.
    #[tactic(auto, unfolding(crate::specs::Rows::leave_row))]
    pub(crate) fn leave_frame(&self) -> XRow
        ensures { says result
            ≡ answer (given self.now.read self.now.input) no_items
            (leave_row (allows (S.cells self.now.memory.now)) self.now.place
            (thread_of self.now.thread)) }
    {
        let frame = self.thread.register(Width::Quad, RBP);
        let read = or_return!(self.read(nothing(), Width::Quad, frame));
        let after = self
            .thread
            .with_register(Width::Quad, RSP, frame.wrapping_add(8))
            .with_register(Width::Quad, RBP, read.value);
        self.leave(read.made, after)
    }

    /// RET, and what a jump to a listed function does in the end, from the state `thread`.
    #[tactic(auto, unfolding(crate::specs::Rows::returns, crate::specs::Answers::answer, crate::specs::View::says))]
    pub(crate) fn return_from(&self, made: RowItems, thread: &X64State) -> XRow
        ensures { says result
            ≡ answer (given self.now.read self.now.input) made
            (returns (allows (S.cells self.now.memory.now)) self.now.place
            (thread_of thread.now)) }
    {
        let top = thread.register(Width::Quad, RSP);
        let read = or_return!(self.read(made, Width::Quad, top));
        XRow::Done(read.made, Next::Return(thread.popped(), read.value))
    }

    /// CALL by a displacement.
    #[tactic(auto, unfolding(crate::specs::Rows::call_row))]
    pub(crate) fn call(&self, flow: Flow, displacement: u64) -> XRow
        ensures { says result
            ≡ answer (given self.now.read self.now.input) no_items
            (call_row (allows (S.cells self.now.memory.now)) self.now.place flow displacement
            (thread_of self.now.thread)) }
    {
        let made = or_return!(self.write(
            nothing(),
            Width::Quad,
            self.thread.below_stack(),
            self.next_address()
        ));
        self.called(made, flow, displacement)
    }

    /// What a call does once it has written the address after it.
    #[tactic(auto, unfolding(crate::specs::Rows::called))]
    fn called(&self, made: RowItems, flow: Flow, displacement: u64) -> XRow
        ensures { says result
            ≡ answer (given self.now.read self.now.input) made
            (called (allows (S.cells self.now.memory.now)) self.now.place flow displacement
            (thread_of self.now.thread)) }
    {
        match flow {
            Flow::ListedIn => self.call_in(made),
            Flow::ListedOut => self.call_out(made),
            Flow::Plain | Flow::TableJump => {
                self.leave(made, self.thread.pushed().jumped(displacement))
            }
        }
    }

    fn call_in(&self, made: RowItems) -> XRow
        ensures { says result
            ≡ answer (given self.now.read self.now.input) made (takes_in self.now.place (λ v.
            leaves (set Width.Quad rax v (thread_of self.now.thread)))) }
    {
        let input = self.take_in(made);
        let after = self.thread.with_register(Width::Quad, RAX, input.value);
        self.after_input(self.leave(input.made, after))
    }

    fn call_out(&self, made: RowItems) -> XRow
        ensures { says result
            ≡ answer (given self.now.read self.now.input) made (puts_out self.now.place
            (register Width.Quad rdi (thread_of self.now.thread))
            (leaves (thread_of self.now.thread))) }
    {
        let made = self.put_out(made, self.thread.register(Width::Quad, RDI));
        self.leave(made, self.thread)
    }

    /// JMP by a displacement.
    #[tactic(auto, unfolding(crate::specs::Rows::jmp_row))]
    pub(crate) fn jump(&self, flow: Flow, displacement: u64) -> XRow
        ensures { says result
            ≡ answer (given self.now.read self.now.input) no_items
            (jmp_row (allows (S.cells self.now.memory.now)) self.now.place flow displacement
            (thread_of self.now.thread)) }
    {
        match flow {
            Flow::ListedIn => self.jump_in(nothing()),
            Flow::ListedOut => self.jump_out(nothing()),
            Flow::Plain | Flow::TableJump => self.leave(
                nothing(),
                self.thread.jumped(displacement),
            ),
        }
    }

    fn jump_in(&self, made: RowItems) -> XRow
        ensures { says result
            ≡ answer (given self.now.read self.now.input) made (takes_in self.now.place (λ v.
            returns (allows (S.cells self.now.memory.now)) self.now.place (set Width.Quad rax v
            (thread_of self.now.thread)))) }
    {
        let input = self.take_in(made);
        let after = self.thread.with_register(Width::Quad, RAX, input.value);
        self.after_input(self.return_from(input.made, &after))
    }

    fn jump_out(&self, made: RowItems) -> XRow
        ensures { says result
            ≡ answer (given self.now.read self.now.input) made (puts_out self.now.place
            (register Width.Quad rdi (thread_of self.now.thread))
            (returns (allows (S.cells self.now.memory.now)) self.now.place
            (thread_of self.now.thread))) }
    {
        let made = self.put_out(made, self.thread.register(Width::Quad, RDI));
        self.return_from(made, &self.thread)
    }

    /// JMP through a table; other indirect jumps have no row.
    #[tactic(auto, unfolding(crate::specs::Rows::table_row, crate::specs::Answers::answer, crate::specs::View::says))]
    pub(crate) fn jump_indirect(&self, flow: Flow, to: &Operand) -> XRow
        requires { IsAddress to.now }
        ensures { says result
            ≡ answer (given self.now.read self.now.input) no_items
            (table_row (allows (S.cells self.now.memory.now)) self.now.place flow to.now
            (thread_of self.now.thread)) }
    {
        match flow {
            Flow::TableJump => {
                XRow::Done(nothing(), Next::Indexed(self.thread, self.index_of(to)))
            }
            Flow::Plain | Flow::ListedIn | Flow::ListedOut => {
                self.trap(nothing(), TrapKind::BadJump)
            }
        }
    }

    /// Jcc.
    pub(crate) fn jump_on_condition(&self, when: Cond, displacement: u64) -> XRow
        requires { IsCondition when }
        ensures { says result
            ≡ answer (given self.now.read self.now.input) no_items (leaves (if condition
            when.code (thread_of self.now.thread).flags then jumped displacement
            (thread_of self.now.thread) else (thread_of self.now.thread))) }
    {
        if self.meets(when) {
            self.leave(nothing(), self.thread.jumped(displacement))
        } else {
            self.leave(nothing(), self.thread)
        }
    }
}
