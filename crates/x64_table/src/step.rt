ghost use Rattle.std.specs.Prelude.{◌≡◌, ◌<◌, ◌^◌, ◌%◌, ℕ, true, false, IfOk, IfErr, Option, Some};
ghost use Rattle.ev_graph.specs.Memory.{allows};
ghost use Rattle.ev_graph.specs.declared.events.FenceKind.TheVariants as fence;
ghost use Rattle.ev_graph.specs.declared.events.Item.TheVariants as items;
ghost use Rattle.behavior.specs.Acts.{access, exchanges, fences_at, locked_write, puts_out, reads, takes_in, traps, writes};
ghost use Rattle.x64_syntax.specs.Operands.{bits};
ghost use Rattle.x64_table.specs.Answers.{answer, answer_at, given, input_unless_read, no_items, with_access, with_items, TakesInput};
ghost use Rattle.x64_table.specs.Operands.{IsAddress, IsSource};
ghost use Rattle.x64_table.specs.Rows.{address_of, changes, fetches, holds, index_of, leaves, stores, Row};
ghost use Rattle.x64_table.specs.State.{Thread, bytes};
ghost use Rattle.x64_table.specs.Steps.{after_input, ends_change};
ghost use Rattle.x64_table.specs.View.{says, thread_of};

use crate::answer::{Next, XRow};
use crate::state::X64State;
use crate::values::low_bits;
use alu_width::Flags;
use ev_graph::{Access, AccessKind, End, EventId, RowItems, StartMemory, TrapKind, Wanted};
use x64_syntax::{Operand, Width};

/// What an instruction is taken with: the memory, the instruction's address, the thread with the address after the
/// instruction, and the values that are given for its read and its input.
#[derive_where(Clone, Copy)]
pub(crate) struct Step<'a, S> {
    pub memory: &'a S,
    pub place: u64,
    pub thread: X64State,
    pub read: Option<u64>,
    pub input: Option<u64>,
}

/// A value that a row has come to, and the items that it has made.
#[derive(Clone, Copy)]
pub(crate) struct Loaded {
    pub value: u64,
    pub made: RowItems,
}

/// A row that has made nothing.
pub(crate) fn nothing() -> RowItems
    ensures { result ≡ no_items }
{
    RowItems {
        input: None,
        output: None,
        read: None,
        write: None,
        fence: false,
    }
}

/// The number of bytes of a width.
pub(crate) fn size(w: Width) -> u8
    ensures { result ≡ bytes w }
{
    match w {
        Width::Byte => 1,
        Width::Word => 2,
        Width::Long => 4,
        Width::Quad => 8,
    }
}

impl<S: StartMemory> Step<'_, S> {
    fn may(&self, write: bool, w: Width, address: u64) -> bool
        ensures { result ≡ allows (S.cells self.now.memory.now) write address (bytes w) }
    {
        self.memory.allows(address, size(w), write)
    }

    fn access(&self, kind: AccessKind, locked: bool, w: Width, address: u64, value: u64) -> Access
        ensures { items.Access result ≡ access kind locked self.now.place address (bytes w) value }
    {
        Access {
            id: EventId {
                thread: 0,
                index: 0,
            },
            kind,
            locked,
            address,
            size: size(w),
            value,
            place: self.place,
        }
    }

    /// The flags.
    #[tactic(auto, unfolding(crate::specs::View::thread_of))]
    pub(crate) fn flags(&self) -> Flags
        ensures { result ≡ (thread_of self.now.thread).flags }
    {
        self.thread.flags
    }

    /// The address after the instruction.
    #[tactic(auto, unfolding(crate::specs::View::thread_of))]
    pub(crate) fn next_address(&self) -> u64
        ensures { result ≡ (thread_of self.now.thread).at }
    {
        self.thread.at
    }

    /// What a register operand holds, or a number.
    #[tactic(auto, unfolding(crate::specs::Rows::holds))]
    pub(crate) fn held(&self, w: Width, operand: &Operand) -> u64
        requires { IsSource w operand.now }
        ensures value { result ≡ holds w operand.now (thread_of self.now.thread) }
        ensures fits { result < 2 ^ bits w }
    {
        match operand {
            Operand::Reg(register) => self.thread.register(w, *register),
            Operand::Mem(_) => 0,
            Operand::Imm(number) => *number,
        }
    }

    /// The address of a memory operand.
    #[tactic(auto, unfolding(crate::specs::Rows::address_of))]
    pub(crate) fn address_of(&self, operand: &Operand) -> u64
        requires { IsAddress operand.now }
        ensures { result ≡ address_of operand.now (thread_of self.now.thread) }
    {
        match operand {
            Operand::Mem(memory) => self.thread.address(memory),
            Operand::Reg(_) | Operand::Imm(_) => 0,
        }
    }

    /// What the index register of a memory operand holds.
    #[tactic(auto, unfolding(crate::specs::Rows::index_of))]
    pub(crate) fn index_of(&self, operand: &Operand) -> u64
        requires { IsAddress operand.now }
        ensures { result ≡ index_of operand.now (thread_of self.now.thread) }
    {
        match operand {
            Operand::Mem(memory) => self.thread.part(memory.index),
            Operand::Reg(_) | Operand::Imm(_) => 0,
        }
    }

    /// The row goes on to the next instruction.
    #[tactic(auto, unfolding(crate::specs::Answers::answer, crate::specs::View::says))]
    pub(crate) fn leave(&self, made: RowItems, after: X64State) -> XRow
        ensures { says result
            ≡ answer (given self.now.read self.now.input) made (leaves (thread_of after)) }
    {
        XRow::Done(made, Next::State(after))
    }

    /// The row ends the thread.
    #[tactic(auto, unfolding(crate::specs::Answers::answer, crate::specs::View::says))]
    pub(crate) fn trap(&self, made: RowItems, kind: TrapKind) -> XRow
        ensures { says result ≡ answer (given self.now.read self.now.input) made (traps kind) }
    {
        XRow::Done(made, Next::End(End::Trap(kind)))
    }

    /// An unlocked read.
    #[tactic(auto, unfolding(crate::specs::Answers::answer, crate::specs::View::says))]
    pub(crate) fn read(&self, made: RowItems, w: Width, address: u64) -> Result<Loaded, XRow>
        ensures value { IfOk result (λ l. (go : ℕ → Row) →
            answer (given self.now.read self.now.input) made (reads (allows (S.cells self.now.memory.now)) self.now.place address (bytes w) go)
            ≡ answer (given self.now.read self.now.input) l.made (go l.value)) }
        ensures early { IfErr result (λ row. (go : ℕ → Row) →
            answer (given self.now.read self.now.input) made (reads (allows (S.cells self.now.memory.now)) self.now.place address (bytes w) go)
            ≡ says row) }
        ensures fits { IfOk result (λ l. l.value < 2 ^ bits w) }
    {
        if !self.may(false, w, address) {
            return Err(self.trap(made, TrapKind::BadAccess));
        }
        match self.read {
            Some(value) => {
                let value = low_bits(w, value);
                let access = self.access(AccessKind::Read, false, w, address, value);
                Ok(Loaded {
                    value,
                    made: RowItems {
                        read: Some(access),
                        ..made
                    },
                })
            }
            None => Err(XRow::WantsRead(Wanted {
                address,
                size: size(w),
                locked: false,
            })),
        }
    }

    /// An unlocked write.
    #[tactic(auto, unfolding(crate::specs::Answers::answer, crate::specs::View::says))]
    pub(crate) fn write(
        &self,
        made: RowItems,
        w: Width,
        address: u64,
        value: u64,
    ) -> Result<RowItems, XRow>
        ensures made { IfOk result (λ items. (go : Row) →
            answer (given self.now.read self.now.input) made (writes (allows (S.cells self.now.memory.now)) self.now.place address (bytes w) value go)
            ≡ answer (given self.now.read self.now.input) items go) }
        ensures early { IfErr result (λ row. (go : Row) →
            answer (given self.now.read self.now.input) made (writes (allows (S.cells self.now.memory.now)) self.now.place address (bytes w) value go)
            ≡ says row) }
    {
        if !self.may(true, w, address) {
            return Err(self.trap(made, TrapKind::BadAccess));
        }
        let access = self.access(AccessKind::Write, false, w, address, low_bits(w, value));
        Ok(RowItems {
            write: Some(access),
            ..made
        })
    }

    /// The read of a locked pair. Both permissions are tested, and the write, if there is one, belongs to the same act.
    #[tactic(auto, unfolding(crate::specs::Answers::answer, crate::specs::View::says))]
    pub(crate) fn lock(&self, made: RowItems, w: Width, address: u64) -> Result<Loaded, XRow>
        ensures value { IfOk result (λ l. (new : ℕ → Option ℕ) (go : ℕ → Row) →
            answer (given self.now.read self.now.input) made (exchanges (allows (S.cells self.now.memory.now)) self.now.place address (bytes w) new go)
            ≡ answer (given self.now.read self.now.input) (with_items l.made (locked_write self.now.place address (bytes w) (new l.value))) (go l.value)) }
        ensures early { IfErr result (λ row. (new : ℕ → Option ℕ) (go : ℕ → Row) →
            answer (given self.now.read self.now.input) made (exchanges (allows (S.cells self.now.memory.now)) self.now.place address (bytes w) new go)
            ≡ says row) }
        ensures fits { IfOk result (λ l. l.value < 2 ^ bits w) }
    {
        if !(self.may(false, w, address) && self.may(true, w, address)) {
            return Err(self.trap(made, TrapKind::BadAccess));
        }
        match self.read {
            Some(value) => {
                let value = low_bits(w, value);
                let access = self.access(AccessKind::Read, true, w, address, value);
                Ok(Loaded {
                    value,
                    made: RowItems {
                        read: Some(access),
                        ..made
                    },
                })
            }
            None => Err(XRow::WantsRead(Wanted {
                address,
                size: size(w),
                locked: true,
            })),
        }
    }

    /// The write of a locked pair.
    pub(crate) fn unlock(&self, made: RowItems, w: Width, address: u64, value: u64) -> RowItems
        ensures { result ≡ with_items made (locked_write self.now.place address (bytes w)
            (Some value)) }
    {
        let access = self.access(AccessKind::Write, true, w, address, low_bits(w, value));
        RowItems {
            write: Some(access),
            ..made
        }
    }

    /// The value of an operand.
    #[tactic(auto, unfolding(crate::specs::Rows::fetches))]
    pub(crate) fn fetch(&self, made: RowItems, w: Width, operand: &Operand) -> Result<Loaded, XRow>
        requires { IsSource w operand.now }
        ensures value { IfOk result (λ l. (go : ℕ → Row) →
            answer (given self.now.read self.now.input) made (fetches (allows (S.cells self.now.memory.now)) self.now.place w operand.now (thread_of self.now.thread) go)
            ≡ answer (given self.now.read self.now.input) l.made (go l.value)) }
        ensures early { IfErr result (λ row. (go : ℕ → Row) →
            answer (given self.now.read self.now.input) made (fetches (allows (S.cells self.now.memory.now)) self.now.place w operand.now (thread_of self.now.thread) go)
            ≡ says row) }
        ensures fits { IfOk result (λ l. l.value < 2 ^ bits w) }
    {
        match operand {
            Operand::Reg(register) => Ok(Loaded {
                value: self.thread.register(w, *register),
                made,
            }),
            Operand::Mem(memory) => self.read(made, w, self.thread.address(memory)),
            Operand::Imm(number) => Ok(Loaded {
                value: *number,
                made,
            }),
        }
    }

    /// The row's end, in which an operand gets a value, with the operand's address in one state.
    #[tactic(auto, unfolding(crate::specs::Rows::stores))]
    pub(crate) fn store(
        &self,
        made: RowItems,
        w: Width,
        operand: &Operand,
        state: &X64State,
        value: u64,
        after: &X64State,
    ) -> XRow
        requires { IsSource w operand.now }
        ensures { says result
            ≡ answer (given self.now.read self.now.input) made
            (stores (allows (S.cells self.now.memory.now)) self.now.place w operand.now
            (thread_of state.now) value (thread_of after.now)) }
    {
        match operand {
            Operand::Reg(register) => self.leave(made, after.with_register(w, *register, value)),
            Operand::Mem(memory) => {
                let made = or_return!(self.write(made, w, state.address(memory), value));
                self.leave(made, *after)
            }
            Operand::Imm(_) => self.leave(made, *after),
        }
    }

    /// The read of a change, which is locked where it is locked memory.
    #[tactic(auto, unfolding(crate::specs::Rows::changes, crate::specs::Steps::ends_change, crate::specs::Answers::answer))]
    pub(crate) fn begin_change(
        &self,
        made: RowItems,
        locked: bool,
        w: Width,
        to: &Operand,
    ) -> Result<Loaded, XRow>
        requires { IsSource w to.now }
        ensures value { IfOk result (λ l. (new : ℕ → ℕ) (after : ℕ → Thread) →
            answer (given self.now.read self.now.input) made (changes (allows (S.cells self.now.memory.now)) self.now.place locked w to.now (thread_of self.now.thread) new after)
            ≡ ends_change (allows (S.cells self.now.memory.now)) self.now.place (given self.now.read self.now.input) l.made locked w to.now (thread_of self.now.thread) (new l.value) (after l.value)) }
        ensures early { IfErr result (λ row. (new : ℕ → ℕ) (after : ℕ → Thread) →
            answer (given self.now.read self.now.input) made (changes (allows (S.cells self.now.memory.now)) self.now.place locked w to.now (thread_of self.now.thread) new after)
            ≡ says row) }
        ensures fits { IfOk result (λ l. l.value < 2 ^ bits w) }
    {
        match to {
            Operand::Mem(memory) if locked => self.lock(made, w, self.thread.address(memory)),
            Operand::Mem(_) | Operand::Reg(_) | Operand::Imm(_) => self.fetch(made, w, to),
        }
    }

    /// The row's end after the read of a change.
    #[tactic(auto, unfolding(crate::specs::Steps::ends_change, crate::specs::Answers::answer))]
    pub(crate) fn end_change(
        &self,
        made: RowItems,
        locked: bool,
        w: Width,
        to: &Operand,
        value: u64,
        after: &X64State,
    ) -> XRow
        requires { IsSource w to.now }
        ensures { says result
            ≡ ends_change (allows (S.cells self.now.memory.now)) self.now.place
            (given self.now.read self.now.input) made locked w to.now
            (thread_of self.now.thread) value (thread_of after.now) }
    {
        match to {
            Operand::Mem(memory) if locked => {
                let made = self.unlock(made, w, self.thread.address(memory), value);
                self.leave(made, *after)
            }
            Operand::Mem(_) | Operand::Reg(_) | Operand::Imm(_) => {
                self.store(made, w, to, &self.thread, value, after)
            }
        }
    }

    /// An input: its value, or 0 where none is given, of which `after_input` lets nothing be seen.
    #[tactic(auto, unfolding(crate::specs::Answers::answer))]
    pub(crate) fn take_in(&self, made: RowItems) -> Loaded
        ensures { (go : ℕ → Row) →
            answer (given self.now.read self.now.input) made (takes_in self.now.place go)
            ≡ after_input self.now.input (answer (given self.now.read self.now.input) result.made (go result.value)) }
    {
        let value = self.input.unwrap_or(0);
        Loaded {
            value,
            made: RowItems {
                input: Some(value),
                ..made
            },
        }
    }

    /// The answer after an input, where it is missing: the input is wanted, unless a read is.
    #[tactic(auto, unfolding(crate::specs::View::says))]
    pub(crate) fn after_input(&self, row: XRow) -> XRow
        ensures { says result ≡ after_input self.now.input (says row) }
    {
        match (self.input, row) {
            (Some(_), _) | (None, XRow::WantsRead(_)) => row,
            (None, XRow::WantsInput | XRow::Done(_, _)) => XRow::WantsInput,
        }
    }

    /// An output.
    #[tactic(auto, unfolding(crate::specs::Answers::answer))]
    pub(crate) fn put_out(&self, made: RowItems, value: u64) -> RowItems
        ensures { (go : Row) →
            answer (given self.now.read self.now.input) made (puts_out self.now.place value go)
            ≡ answer (given self.now.read self.now.input) result go }
    {
        RowItems {
            output: Some(value),
            ..made
        }
    }

    /// MFENCE.
    #[tactic(auto, unfolding(crate::specs::Answers::answer, crate::specs::View::says))]
    pub(crate) fn fence(&self) -> XRow
        ensures { says result
            ≡ answer (given self.now.read self.now.input) no_items (fences_at fence.Mfence
            self.now.place (leaves (thread_of self.now.thread))) }
    {
        let made = RowItems {
            fence: true,
            ..nothing()
        };
        XRow::Done(made, Next::State(self.thread))
    }
}
