ghost use Rattle.std.specs.Prelude.{◌≡◌, ◌++◌, false, OnOk};
ghost use Rattle.word_arith.specs.Masks.{ones};
ghost use Rattle.x64_syntax.specs.Operands.{bits as bits_of};
ghost use Rattle.x64_syntax.specs.declared.instr.Instr.TheVariants as instructions;
ghost use Rattle.lift_alu.specs.Formulas.{done};
ghost use Rattle.lift_alu.specs.Lifted.{lifts};
ghost use Rattle.lift_alu.specs.SoFar.{so_far};

use crate::access::Site;
use crate::builder::Builder;
use crate::flags::{DifferenceOverflow, SumOverflow, Top};
use crate::formula::{Compute, Constant, Operate, operation_by};
use crate::operands::Clean;
use ev_graph::NoMemory;
use limm_ir::{IrOp, Temp};
use x64_syntax::{Operand, Width};

/// Ones at each bit of a width.
pub(crate) fn mask(width: Width) -> u64
    ensures { result ≡ ones (bits_of width) }
{
    match width {
        Width::Byte => 0xFF,
        Width::Word => 0xFFFF,
        Width::Long => 0xFFFF_FFFF,
        Width::Quad => u64::MAX,
    }
}

/// A value with each bit of a width turned round.
#[derive(Clone, Copy)]
struct Inverted {
    width: Width,
    value: Temp,
}

impl Compute for Inverted {
    ghost use Rattle.word_arith.specs.Masks.{ones};
    ghost use Rattle.x64_syntax.specs.Operands.{bits as bits_of};
    ghost use Rattle.limm_ir.specs.declared.step.IrOp.TheVariants as ops;
    ghost use Rattle.lift_alu.specs.Formulas.{Kept, Number, Operation};

    ghost formula = { λ v. Operation ops.Xor (Kept v.value.0) (Number (ones (bits_of v.width))) };

    fn compute(self, builder: &mut Builder) -> Result<Temp, NoMemory> {
        operation_by(IrOp::Xor, self.value, mask(self.width)).compute(builder)
    }
}

impl Builder {
    /// INC: 1 is added, and CF stays.
    pub fn increment(&mut self, site: Site, width: Width, to: &Operand) -> Result<(), NoMemory>
        ensures { OnOk result (so_far self.old (lifts site.at site.after (instructions.Inc width to.now false)) ≡ so_far self.new done) }
    {
        let change = self.begin_change(site, width, to)?;
        let one = Constant(1);
        let new = self.keep(Clean {
            width,
            value: Operate {
                op: IrOp::Add,
                first: change.value,
                second: one,
            },
        })?;
        self.write_there(site, width, change.there, new)?;
        let overflow = SumOverflow {
            width,
            first: change.value,
            second: one,
            sum: new,
        };
        self.set_result(width, overflow, new)?;
        self.put_there(width, change.there, new)?;
        Ok(())
    }

    /// DEC: 1 is taken away, and CF stays.
    pub fn decrement(&mut self, site: Site, width: Width, to: &Operand) -> Result<(), NoMemory>
        ensures { OnOk result (so_far self.old (lifts site.at site.after (instructions.Dec width to.now false)) ≡ so_far self.new done) }
    {
        let change = self.begin_change(site, width, to)?;
        let one = Constant(1);
        let new = self.keep(Clean {
            width,
            value: Operate {
                op: IrOp::Sub,
                first: change.value,
                second: one,
            },
        })?;
        self.write_there(site, width, change.there, new)?;
        let overflow = DifferenceOverflow {
            width,
            first: change.value,
            second: one,
            difference: new,
        };
        self.set_result(width, overflow, new)?;
        self.put_there(width, change.there, new)?;
        Ok(())
    }

    /// NOT: each bit is turned round, and flags stay.
    pub fn invert(&mut self, site: Site, width: Width, to: &Operand) -> Result<(), NoMemory>
        ensures { OnOk result (so_far self.old (lifts site.at site.after (instructions.Not width to.now false)) ≡ so_far self.new done) }
    {
        let change = self.begin_change(site, width, to)?;
        let new = self.keep(Inverted {
            width,
            value: change.value,
        })?;
        self.write_there(site, width, change.there, new)?;
        self.put_there(width, change.there, new)?;
        Ok(())
    }

    /// NEG: the operand is taken from 0.
    pub fn negate(&mut self, site: Site, width: Width, to: &Operand) -> Result<(), NoMemory>
        ensures { OnOk result (so_far self.old (lifts site.at site.after (instructions.Neg width to.now)) ≡ so_far self.new done) }
    {
        let change = self.begin_change(site, width, to)?;
        let zero = Constant(0);
        let new = self.keep(Clean {
            width,
            value: Operate {
                op: IrOp::Sub,
                first: zero,
                second: change.value,
            },
        })?;
        self.write_there(site, width, change.there, new)?;
        let overflow = Top {
            width,
            value: Operate {
                op: IrOp::And,
                first: change.value,
                second: new,
            },
        };
        let borrow = Operate {
            op: IrOp::LessU,
            first: zero,
            second: change.value,
        };
        self.set_flags(width, overflow, borrow, new)?;
        self.put_there(width, change.there, new)?;
        Ok(())
    }
}
