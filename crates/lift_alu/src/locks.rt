ghost use Rattle.std.specs.Prelude.{◌≡◌, ◌++◌, IfOk, OnOk};
ghost use Rattle.lift_alu.specs.Formulas.{Formula, Lifting, Kept, done};
ghost use Rattle.lift_alu.specs.Lifted.{modifies_there, locks, replaces_there, combines_locked, increments_locked, decrements_locked, inverts_locked, swaps, adds_locked, compares_locked, lifts_locked};
ghost use Rattle.lift_alu.specs.Locks.{modifies, replaces, locked_op as op_of};
ghost use Rattle.lift_alu.specs.SoFar.{so_far};
ghost use Rattle.lift_alu.specs.There.{place_of};

use crate::access::{Site, There};
use crate::builder::Builder;
use crate::flags::{CARRY, DifferenceOverflow, SumOverflow};
use crate::formula::{
    Choose, Compute, Constant, FlagNow, Operate, RegisterNow, operation, operation_by,
};
use crate::operands::{Clean, Merged, bytes};
use crate::unary::mask;
use ev_graph::NoMemory;
use limm_ir::{IrOp, IrStep, RmwOp, Temp};
use x64_syntax::{AluOp, Instr, Operand, Reg, Width};

const RAX: Reg = Reg {
    number: 0,
    high: false,
};

/// The locked step that makes an operation's result: sums and differences add, and CMP is never
/// locked.
fn locked_op(op: AluOp) -> RmwOp
    ensures { result ≡ op_of op }
{
    match op {
        AluOp::Add | AluOp::Adc | AluOp::Sbb | AluOp::Sub | AluOp::Cmp => RmwOp::Add,
        AluOp::Or => RmwOp::Set,
        AluOp::And => RmwOp::Clear,
        AluOp::Xor => RmwOp::Flip,
    }
}

/// What the locked step of an operation is given, by the second value.
#[derive(Clone, Copy)]
struct Given {
    op: AluOp,
    second: Temp,
}

impl Compute for Given {
    ghost use Rattle.lift_alu.specs.Formulas.{Kept};
    ghost use Rattle.lift_alu.specs.Locks.{given};

    ghost formula = { λ g. given g.op (Kept g.second.0) };

    fn compute(self, builder: &mut Builder) -> Result<Temp, NoMemory> {
        let with_carry = operation(IrOp::Add, self.second, FlagNow(CARRY));
        match self.op {
            AluOp::Add | AluOp::Or | AluOp::Xor | AluOp::Cmp => self.second.compute(builder),
            AluOp::Adc => with_carry.compute(builder),
            AluOp::Sbb => operation(IrOp::Sub, Constant(0), with_carry).compute(builder),
            AluOp::And => operation_by(IrOp::Xor, self.second, u64::MAX).compute(builder),
            AluOp::Sub => operation(IrOp::Sub, Constant(0), self.second).compute(builder),
        }
    }
}

/// RAX after CMPXCHG, by its part before and by what was in memory.
#[derive(Clone, Copy)]
struct Accumulator {
    width: Width,
    expected: Temp,
    old: Temp,
}

impl Compute for Accumulator {
    ghost use Rattle.lift_alu.specs.Formulas.{Kept};
    ghost use Rattle.lift_alu.specs.Locks.{accumulator};

    ghost formula = { λ a. accumulator a.width (Kept a.expected.0) (Kept a.old.0) };

    #[tactic(auto, unfolding(crate::specs::Locks::accumulator))]
    fn compute(self, builder: &mut Builder) -> Result<Temp, NoMemory> {
        let chosen = Choose {
            condition: operation(IrOp::Eq, self.expected, self.old),
            first: RegisterNow(RAX.number),
            second: self.old,
        };
        let merged = Merged {
            width: self.width,
            register: RAX,
            value: self.old,
        };
        match self.width {
            Width::Long => chosen.compute(builder),
            Width::Byte | Width::Word | Width::Quad => merged.compute(builder),
        }
    }
}

impl Builder {
    /// Changes what is at an address in one locked step, for the instruction at `at`, and keeps what
    /// was there.
    fn modify(
        &mut self,
        op: RmwOp,
        at: u64,
        size: u8,
        address: Temp,
        value: Temp,
    ) -> Result<Temp, NoMemory>
        ensures { IfOk result (λ t. (rest : Formula → Lifting) → so_far self.old (modifies op at size address.0 value.0 rest) ≡ so_far self.new (rest (Kept t.0))) }
    {
        let old = self.fresh()?;
        self.push(IrStep::Rmw(op, old, address, value, size, at))?;
        Ok(old)
    }

    /// Puts a value in the place of an expected one in one locked step, and keeps what was there.
    fn replace(
        &mut self,
        at: u64,
        size: u8,
        address: Temp,
        expected: Temp,
        value: Temp,
    ) -> Result<Temp, NoMemory>
        ensures { IfOk result (λ t. (rest : Formula → Lifting) → so_far self.old (replaces at size address.0 expected.0 value.0 rest) ≡ so_far self.new (rest (Kept t.0))) }
    {
        let old = self.fresh()?;
        self.push(IrStep::Cas(old, address, expected, value, size, at))?;
        Ok(old)
    }

    /// Changes memory that was found in one locked step, and keeps what was there.
    #[tactic(auto, unfolding(crate::specs::Lifted::modifies_there))]
    fn modify_there(
        &mut self,
        site: Site,
        op: RmwOp,
        width: Width,
        there: There,
        value: Temp,
    ) -> Result<Temp, NoMemory>
        ensures { IfOk result (λ t. (rest : Formula → Lifting) → so_far self.old (modifies_there site.at site.after op width (place_of there) (Kept value.0) rest) ≡ so_far self.new (rest (Kept t.0))) }
    {
        match there {
            There::Memory(address) => self.modify(op, site.at, bytes(width), address, value),
            There::Register(_) | There::Nowhere => Ok(value),
        }
    }

    /// Changes memory in one locked step, and keeps what was there.
    fn lock<E: Compute>(
        &mut self,
        site: Site,
        op: RmwOp,
        width: Width,
        to: &Operand,
        value: E,
    ) -> Result<Temp, NoMemory>
        ensures { IfOk result (λ t. (rest : Formula → Lifting) → so_far self.old (locks site.at site.after op width to.now (E.formula value) rest) ≡ so_far self.new (rest (Kept t.0))) }
    {
        let there = self.find(site, to)?;
        let given = self.keep(value)?;
        let old = self.modify_there(site, op, width, there, given)?;
        Ok(old)
    }

    /// Puts a value in the place of an expected one in memory that was found, and keeps what was
    /// there.
    #[tactic(auto, unfolding(crate::specs::Lifted::replaces_there))]
    fn replace_there(
        &mut self,
        site: Site,
        width: Width,
        there: There,
        expected: Temp,
        value: Temp,
    ) -> Result<Temp, NoMemory>
        ensures { IfOk result (λ t. (rest : Formula → Lifting) → so_far self.old (replaces_there site.at site.after width (place_of there) (Kept expected.0) (Kept value.0) rest) ≡ so_far self.new (rest (Kept t.0))) }
    {
        match there {
            There::Memory(address) => self.replace(site.at, bytes(width), address, expected, value),
            There::Register(_) | There::Nowhere => Ok(value),
        }
    }

    /// Locked memory becomes the result of an operation, and the flags come from what was there.
    fn combine_locked(
        &mut self,
        site: Site,
        op: AluOp,
        width: Width,
        to: &Operand,
        from: &Operand,
    ) -> Result<(), NoMemory>
        ensures { OnOk result (so_far self.old (combines_locked site.at site.after op width to.now from.now) ≡ so_far self.new done) }
    {
        let b = self.fetch(site, width, from)?;
        let a = self.lock(site, locked_op(op), width, to, Given { op, second: b })?;
        let value = self.keep_result(op, width, a, b)?;
        self.set_flags_of(op, width, a, b, value)?;
        Ok(())
    }

    /// INC of locked memory: 1 is added, and CF stays.
    fn increment_locked(&mut self, site: Site, width: Width, to: &Operand) -> Result<(), NoMemory>
        ensures { OnOk result (so_far self.old (increments_locked site.at site.after width to.now) ≡ so_far self.new done) }
    {
        let one = Constant(1);
        let old = self.lock(site, RmwOp::Add, width, to, one)?;
        let new = self.keep(Clean {
            width,
            value: Operate {
                op: IrOp::Add,
                first: old,
                second: one,
            },
        })?;
        let overflow = SumOverflow {
            width,
            first: old,
            second: one,
            sum: new,
        };
        self.set_result(width, overflow, new)?;
        Ok(())
    }

    /// DEC of locked memory: all ones are added, and CF stays.
    fn decrement_locked(&mut self, site: Site, width: Width, to: &Operand) -> Result<(), NoMemory>
        ensures { OnOk result (so_far self.old (decrements_locked site.at site.after width to.now) ≡ so_far self.new done) }
    {
        let one = Constant(1);
        let old = self.lock(site, RmwOp::Add, width, to, Constant(u64::MAX))?;
        let new = self.keep(Clean {
            width,
            value: Operate {
                op: IrOp::Sub,
                first: old,
                second: one,
            },
        })?;
        let overflow = DifferenceOverflow {
            width,
            first: old,
            second: one,
            difference: new,
        };
        self.set_result(width, overflow, new)?;
        Ok(())
    }

    /// NOT of locked memory: each bit is turned round, and flags stay.
    fn invert_locked(&mut self, site: Site, width: Width, to: &Operand) -> Result<(), NoMemory>
        ensures { OnOk result (so_far self.old (inverts_locked site.at site.after width to.now) ≡ so_far self.new done) }
    {
        let ones = Constant(mask(width));
        self.lock(site, RmwOp::Flip, width, to, ones)?;
        Ok(())
    }

    /// XCHG with memory: the register gets what was there.
    fn swap(
        &mut self,
        site: Site,
        width: Width,
        to: &Operand,
        from: &Operand,
    ) -> Result<(), NoMemory>
        ensures { OnOk result (so_far self.old (swaps site.at site.after width to.now from.now) ≡ so_far self.new done) }
    {
        let value = self.fetch(site, width, from)?;
        let old = self.lock(site, RmwOp::Swap, width, to, value)?;
        self.put_operand(width, from, old)?;
        Ok(())
    }

    /// XADD of locked memory: it gets the sum, and the register what was there.
    fn add_locked(
        &mut self,
        site: Site,
        width: Width,
        to: &Operand,
        from: &Operand,
    ) -> Result<(), NoMemory>
        ensures { OnOk result (so_far self.old (adds_locked site.at site.after width to.now from.now) ≡ so_far self.new done) }
    {
        let value = self.fetch(site, width, from)?;
        let old = self.lock(site, RmwOp::Add, width, to, value)?;
        let sum = self.keep_result(AluOp::Add, width, old, value)?;
        self.set_flags_of(AluOp::Add, width, old, value, sum)?;
        self.put_operand(width, from, old)?;
        Ok(())
    }

    /// CMPXCHG: memory gets a register's value where the accumulator's is there, and the accumulator
    /// gets what was there.
    fn compare_locked(
        &mut self,
        site: Site,
        width: Width,
        to: &Operand,
        from: &Operand,
    ) -> Result<(), NoMemory>
        ensures { OnOk result (so_far self.old (compares_locked site.at site.after width to.now from.now) ≡ so_far self.new done) }
    {
        let expected = self.fetch(site, width, &Operand::Reg(RAX))?;
        let value = self.fetch(site, width, from)?;
        let there = self.find(site, to)?;
        let old = self.replace_there(site, width, there, expected, value)?;
        let difference = self.keep_result(AluOp::Cmp, width, expected, old)?;
        self.set_flags_of(AluOp::Cmp, width, expected, old, difference)?;
        let accumulator = Accumulator {
            width,
            expected,
            old,
        };
        self.set_register(RAX.number, accumulator)?;
        Ok(())
    }

    /// A locked instruction.
    pub fn lift_locked(&mut self, site: Site, instr: &Instr) -> Result<(), NoMemory>
        ensures { OnOk result (so_far self.old (lifts_locked site.at site.after instr.now) ≡ so_far self.new done) }
    {
        match instr {
            Instr::Alu(op, width, to, from, _) => self.combine_locked(site, *op, *width, to, from),
            Instr::Xchg(width, to, from, _) => self.swap(site, *width, to, from),
            Instr::Inc(width, to, _) => self.increment_locked(site, *width, to),
            Instr::Dec(width, to, _) => self.decrement_locked(site, *width, to),
            Instr::Not(width, to, _) => self.invert_locked(site, *width, to),
            Instr::Xadd(width, to, from, _) => self.add_locked(site, *width, to, from),
            Instr::Cmpxchg(width, to, from, _) => self.compare_locked(site, *width, to, from),
            _ => Ok(()),
        }
    }
}
