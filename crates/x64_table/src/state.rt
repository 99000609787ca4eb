ghost use Rattle.std.specs.Prelude.{◌≡◌, ◌<◌, ◌^◌, ◌%◌, ◌*◌, ◌/◌, ◌≤◌, ℕ, pos, ◌+ℤ◌, IfSome};
ghost use Rattle.word_arith.specs.Signed.{low_bits};
ghost use Rattle.x64_syntax.specs.Formed.{IsMemory};
ghost use Rattle.x64_syntax.specs.Operands.{bits};
ghost use Rattle.x64_table.specs.Operands.{IsSource};
ghost use Rattle.x64_table.specs.Rows.{half, puts, puts_double};
ghost use Rattle.x64_table.specs.State.{address, below_stack, jumped, lowest, merged, part, popped, pushed, register, set, upper, with_flags};
ghost use Rattle.x64_table.specs.View.{thread_of};

use crate::values::low_bits;
use alu_width::Flags;
use x64_syntax::{Mem, Operand, Reg, Width};

/// A thread between two instructions: its 64-bit registers by their numbers (`rax` is 0, `r15` is 15), its
/// flags, and the address of the next instruction.
#[derive(Clone, Copy, Debug, PartialEq, Eq)]
pub struct X64State {
    pub regs: [u64; 16],
    pub flags: Flags,
    pub at: u64,
}

/// AL, AX, EAX or RAX.
pub(crate) const RAX: Reg = Reg {
    number: 0,
    high: false,
};
/// DX, EDX or RDX.
pub(crate) const RDX: Reg = Reg {
    number: 2,
    high: false,
};
/// RSP.
pub(crate) const RSP: Reg = Reg {
    number: 4,
    high: false,
};
/// RBP.
pub(crate) const RBP: Reg = Reg {
    number: 5,
    high: false,
};
/// RDI.
pub(crate) const RDI: Reg = Reg {
    number: 7,
    high: false,
};
/// AH.
pub(crate) const AH: Reg = Reg {
    number: 0,
    high: true,
};

impl X64State {
    /// What a register holds at a width.
    #[tactic(auto, unfolding(crate::specs::State::register, crate::specs::View::thread_of))]
    pub(crate) fn register(&self, w: Width, r: Reg) -> u64
        requires { r.number < 16 }
        ensures value { result ≡ register w r (thread_of self.now) }
        ensures fits { result < 2 ^ bits w }
    {
        let whole = self.regs[usize::from(r.number)];
        low_bits(w, if r.high { whole >> 8 } else { whole })
    }

    /// The state in which a register has the low bits of a value: 32 bits clear the upper half, and 8 or 16 bits
    /// keep the rest.
    pub(crate) fn with_register(&self, w: Width, r: Reg, value: u64) -> X64State
        requires { r.number < 16 }
        ensures { thread_of result ≡ set w r value (thread_of self.now) }
    {
        let number = usize::from(r.number);
        let mut regs = self.regs;
        regs[number] = merge(w, r.high, regs[number], value);
        X64State { regs, ..*self }
    }

    /// The state with other flags.
    #[tactic(auto, unfolding(crate::specs::View::thread_of))]
    pub(crate) fn with_flags(&self, flags: Flags) -> X64State
        ensures { thread_of result ≡ with_flags flags (thread_of self.now) }
    {
        X64State { flags, ..*self }
    }

    /// The state after a jump by a displacement modulo 2^64.
    #[tactic(auto, unfolding(crate::specs::View::thread_of, crate::specs::State::jumped))]
    pub(crate) fn jumped(&self, displacement: u64) -> X64State
        ensures { thread_of result ≡ jumped displacement (thread_of self.now) }
    {
        X64State {
            at: self.at.wrapping_add(displacement),
            ..*self
        }
    }

    /// The address of the eight bytes that a push writes.
    #[tactic(auto, unfolding(crate::specs::State::below_stack))]
    pub(crate) fn below_stack(&self) -> u64
        ensures { result ≡ below_stack (thread_of self.now) }
    {
        self.register(Width::Quad, RSP).wrapping_sub(8)
    }

    /// The state after a push of eight bytes.
    #[tactic(auto, unfolding(crate::specs::State::pushed))]
    pub(crate) fn pushed(&self) -> X64State
        ensures { thread_of result ≡ pushed (thread_of self.now) }
    {
        self.with_register(Width::Quad, RSP, self.below_stack())
    }

    /// The state after a pop of eight bytes.
    #[tactic(auto, unfolding(crate::specs::State::popped))]
    pub(crate) fn popped(&self) -> X64State
        ensures { thread_of result ≡ popped (thread_of self.now) }
    {
        self.with_register(
            Width::Quad,
            RSP,
            self.register(Width::Quad, RSP).wrapping_add(8),
        )
    }

    /// The address of a memory operand, where the state has the address after the instruction.
    #[tactic(auto, unfolding(crate::specs::State::address, crate::specs::View::thread_of))]
    pub(crate) fn address(&self, m: &Mem) -> u64
        requires { IsMemory m.now }
        ensures { result ≡ address m.now (thread_of self.now) }
    {
        let relative = if m.rip { self.at } else { 0 };
        let sum = self
            .part(m.base)
            .wrapping_add(self.part(m.index).wrapping_mul(u64::from(m.scale)))
            .wrapping_add(relative);
        displaced(sum, m.offset)
    }

    /// The state in which a register operand has the low bits of a value.
    #[tactic(auto, unfolding(crate::specs::Rows::puts))]
    pub(crate) fn with_operand(&self, w: Width, operand: &Operand, value: u64) -> X64State
        requires { IsSource w operand.now }
        ensures { thread_of result ≡ puts w operand.now value (thread_of self.now) }
    {
        match operand {
            Operand::Reg(register) => self.with_register(w, *register, value),
            Operand::Mem(_) | Operand::Imm(_) => *self,
        }
    }

    /// The state in which the accumulator and its upper half have the two halves of a double word.
    #[tactic(auto, unfolding(crate::specs::Rows::puts_double))]
    pub(crate) fn with_double(&self, w: Width, low: u64, high: u64) -> X64State
        ensures { thread_of result ≡ puts_double w low high (thread_of self.now) }
    {
        self.with_register(w, RAX, low)
            .with_register(w, upper(w), high)
    }

    /// A base or index, where there is one.
    #[tactic(auto, unfolding(crate::specs::View::thread_of))]
    pub(crate) fn part(&self, number: Option<u8>) -> u64
        requires { IfSome number (λ n. n < 16) }
        ensures { result ≡ part number (thread_of self.now) }
    {
        match number {
            Some(number) => self.regs[usize::from(number)],
            None => 0,
        }
    }
}

/// Where the upper half of a double word is: AH beside AL, and else the register D.
pub(crate) fn upper(w: Width) -> Reg
    ensures value { result ≡ upper w }
    ensures number { result.number < 16 }
{
    match w {
        Width::Byte => AH,
        Width::Word | Width::Long | Width::Quad => RDX,
    }
}

/// Half of a width, and a byte's own.
pub(crate) fn half(w: Width) -> Width
    ensures value { result ≡ half w }
    ensures narrower { bits result ≤ bits w }
{
    match w {
        Width::Quad => Width::Long,
        Width::Long => Width::Word,
        Width::Word | Width::Byte => Width::Byte,
    }
}

/// A sum with a signed offset, modulo 2^64.
fn displaced(sum: u64, offset: i64) -> u64
    ensures { result ≡ low_bits 64 (pos sum +ℤ offset) }
{
    sum.wrapping_add_signed(offset)
}

/// A 64-bit register of which a part gets the low bits of a value.
#[tactic(auto, unfolding(crate::specs::State::merged))]
fn merge(w: Width, high: bool, old: u64, value: u64) -> u64
    ensures { result ≡ merged w high old value }
{
    let value = low_bits(w, value);
    match w {
        Width::Byte if high => old / 0x1_0000 * 0x1_0000 + value * 0x100 + old % 0x100,
        Width::Byte => old / 0x100 * 0x100 + value,
        Width::Word => old / 0x1_0000 * 0x1_0000 + value,
        Width::Long | Width::Quad => value,
    }
}
