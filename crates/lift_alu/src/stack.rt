ghost use Rattle.std.specs.Prelude.{◌≡◌, ◌++◌, IfOk, OnOk};
ghost use Rattle.lift_alu.specs.Formulas.{Formula, Lifting, Kept, done, sets_register};
ghost use Rattle.lift_alu.specs.Lifted.{pushes, pops, writes_return, leaves_frame};
ghost use Rattle.lift_alu.specs.SoFar.{so_far};

use crate::access::Site;
use crate::builder::Builder;
use crate::formula::{Constant, Operate, RegisterNow};
use ev_graph::NoMemory;
use limm_ir::{IrOp, Temp};
use x64_syntax::{Operand, Width};

const RSP: u8 = 4;

const RBP: u8 = 5;

impl Builder {
    /// PUSH: the value is written below the stack.
    pub fn push_value(&mut self, site: Site, from: &Operand) -> Result<(), NoMemory>
        ensures { OnOk result (so_far self.old (pushes site.at site.after from.now) ≡ so_far self.new done) }
    {
        let value = self.fetch(site, Width::Quad, from)?;
        let below = self.keep(Operate {
            op: IrOp::Sub,
            first: RegisterNow(RSP),
            second: Constant(8),
        })?;
        self.store(site.at, 8, below, value)?;
        self.set_register(RSP, below)?;
        Ok(())
    }

    /// What stands on the stack is kept, and the stack is one value shorter.
    pub fn pop_value(&mut self, site: Site) -> Result<Temp, NoMemory>
        ensures { IfOk result (λ t. (rest : Formula → Lifting) → so_far self.old (pops site.at site.after rest) ≡ so_far self.new (rest (Kept t.0))) }
    {
        let value = self.load(site.at, 8, RegisterNow(RSP))?;
        let shorter = Operate {
            op: IrOp::Add,
            first: RegisterNow(RSP),
            second: Constant(8),
        };
        self.set_register(RSP, shorter)?;
        Ok(value)
    }

    /// Writes the address behind an instruction below the stack, and answers where it is written.
    pub fn write_return(&mut self, site: Site) -> Result<Temp, NoMemory>
        ensures { IfOk result (λ t. (rest : Formula → Lifting) → so_far self.old (writes_return site.at site.after rest) ≡ so_far self.new (rest (Kept t.0))) }
    {
        let behind = self.keep(Constant(site.after))?;
        let below = self.keep(Operate {
            op: IrOp::Sub,
            first: RegisterNow(RSP),
            second: Constant(8),
        })?;
        self.store(site.at, 8, below, behind)?;
        Ok(below)
    }

    /// What is written below the stack becomes its first value.
    pub fn begin_stack(&mut self, below: Temp) -> Result<(), NoMemory>
        ensures { OnOk result ((rest : Lifting) → so_far self.old (sets_register 4 (Kept below.0) rest) ≡ so_far self.new rest) }
    {
        self.set_register(RSP, below)
    }

    /// LEAVE: the stack begins behind the frame.
    pub fn leave_frame(&mut self, site: Site) -> Result<(), NoMemory>
        ensures { OnOk result (so_far self.old (leaves_frame site.at site.after) ≡ so_far self.new done) }
    {
        let value = self.load(site.at, 8, RegisterNow(RBP))?;
        let behind = Operate {
            op: IrOp::Add,
            first: RegisterNow(RBP),
            second: Constant(8),
        };
        self.set_register(RSP, behind)?;
        self.set_register(RBP, value)?;
        Ok(())
    }
}
