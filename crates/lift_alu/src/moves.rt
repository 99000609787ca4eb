ghost use Rattle.std.specs.Prelude.{◌≡◌, ◌++◌, OnOk};
ghost use Rattle.x64_syntax.specs.declared.instr.Instr.TheVariants as instructions;
ghost use Rattle.x64_table.specs.Rows.{half as half_of};
ghost use Rattle.x64_table.specs.State.{upper as upper_of};
ghost use Rattle.lift_alu.specs.Formulas.{Kept, done};
ghost use Rattle.lift_alu.specs.Lifted.{lifts, takes_address, chooses};
ghost use Rattle.lift_alu.specs.SoFar.{so_far};

use crate::access::{Site, part_of};
use crate::builder::Builder;
use crate::flags::Condition;
use crate::formula::{Choose, Constant, Operate};
use crate::operands::{Clean, FromPart, WithSign, address_of};
use ev_graph::NoMemory;
use limm_ir::{IrOp, Temp};
use x64_syntax::{Cond, Operand, Reg, Width};

pub(crate) const RAX: Reg = Reg {
    number: 0,
    high: false,
};

pub(crate) const RDX: Reg = Reg {
    number: 2,
    high: false,
};

const AH: Reg = Reg {
    number: 0,
    high: true,
};

/// Half of a width.
fn half(width: Width) -> Width
    ensures { result ≡ half_of width }
{
    match width {
        Width::Quad => Width::Long,
        Width::Long => Width::Word,
        Width::Word | Width::Byte => Width::Byte,
    }
}

/// Where the upper half of a double word is.
fn upper(width: Width) -> Reg
    ensures { result ≡ upper_of width }
{
    match width {
        Width::Byte => AH,
        Width::Word | Width::Long | Width::Quad => RDX,
    }
}

impl Builder {
    /// MOV.
    pub fn copy(
        &mut self,
        site: Site,
        width: Width,
        to: &Operand,
        from: &Operand,
    ) -> Result<(), NoMemory>
        ensures { OnOk result (so_far self.old (lifts site.at site.after (instructions.Mov width to.now from.now)) ≡ so_far self.new done) }
    {
        let value = self.fetch(site, width, from)?;
        self.move_to(site, width, to, value)?;
        Ok(())
    }

    /// LEA: a register gets an address.
    #[tactic(auto, unfolding(crate::specs::Lifted::takes_address, crate::specs::Operands::address_formula))]
    pub fn take_address(
        &mut self,
        site: Site,
        width: Width,
        to: &Operand,
        from: &Operand,
    ) -> Result<(), NoMemory>
        ensures { OnOk result (so_far self.old (takes_address site.at site.after width to.now from.now) ≡ so_far self.new done) }
    {
        match from {
            Operand::Mem(memory) => {
                let value = address_of(memory, site.after);
                self.put_operand(width, to, Clean { width, value })
            }
            Operand::Reg(_) | Operand::Imm(_) => Ok(()),
        }
    }

    /// MOVZX: a register gets a value of a narrower width.
    pub fn widen_by_zeros(
        &mut self,
        site: Site,
        width: Width,
        narrow: Width,
        to: &Operand,
        from: &Operand,
    ) -> Result<(), NoMemory>
        ensures { OnOk result (so_far self.old (lifts site.at site.after (instructions.MovZx width narrow to.now from.now)) ≡ so_far self.new done) }
    {
        let value = self.fetch(site, narrow, from)?;
        self.put_operand(width, to, value)?;
        Ok(())
    }

    /// MOVSX: a register gets a value of a narrower width with its sign.
    pub fn widen_by_sign(
        &mut self,
        site: Site,
        width: Width,
        narrow: Width,
        to: &Operand,
        from: &Operand,
    ) -> Result<(), NoMemory>
        ensures { OnOk result (so_far self.old (lifts site.at site.after (instructions.MovSx width narrow to.now from.now)) ≡ so_far self.new done) }
    {
        let value = self.fetch(site, narrow, from)?;
        let signed = WithSign {
            width: narrow,
            value,
        };
        let clean = Clean {
            width,
            value: signed,
        };
        self.put_operand(width, to, clean)?;
        Ok(())
    }

    /// MOVSXD: a register of 64 bits gets a value of 32 bits with its sign.
    pub fn widen_long(&mut self, site: Site, to: &Operand, from: &Operand) -> Result<(), NoMemory>
        ensures { OnOk result (so_far self.old (lifts site.at site.after (instructions.MovSxd to.now from.now)) ≡ so_far self.new done) }
    {
        let value = self.fetch(site, Width::Long, from)?;
        let signed = WithSign {
            width: Width::Long,
            value,
        };
        self.put_operand(Width::Quad, to, signed)?;
        Ok(())
    }

    /// SETcc: an operand of a byte gets a condition.
    pub fn set_condition(
        &mut self,
        site: Site,
        condition: Cond,
        to: &Operand,
    ) -> Result<(), NoMemory>
        ensures { OnOk result (so_far self.old (lifts site.at site.after (instructions.SetCc condition to.now)) ≡ so_far self.new done) }
    {
        let value = self.keep(Condition {
            code: condition.code,
        })?;
        self.move_to(site, Width::Byte, to, value)?;
        Ok(())
    }

    /// A register gets a value where a condition holds; of 32 bits the upper half is cleared in both
    /// cases.
    #[tactic(auto, unfolding(crate::specs::Lifted::chooses, crate::specs::Operands::register_formula))]
    pub fn choose(
        &mut self,
        site: Site,
        code: u8,
        width: Width,
        to: &Operand,
        value: Temp,
    ) -> Result<(), NoMemory>
        ensures { OnOk result (so_far self.old (chooses site.at site.after code width to.now (Kept value.0)) ≡ so_far self.new done) }
    {
        match to {
            Operand::Reg(register) => {
                let choice = Choose {
                    condition: Condition { code },
                    first: value,
                    second: part_of(width, *register),
                };
                self.put(width, *register, choice)
            }
            Operand::Mem(_) | Operand::Imm(_) => Ok(()),
        }
    }

    /// CMOVcc.
    pub fn copy_if(
        &mut self,
        site: Site,
        condition: Cond,
        width: Width,
        to: &Operand,
        from: &Operand,
    ) -> Result<(), NoMemory>
        ensures { OnOk result (so_far self.old (lifts site.at site.after (instructions.CmovCc condition width to.now from.now)) ≡ so_far self.new done) }
    {
        let value = self.fetch(site, width, from)?;
        self.choose(site, condition.code, width, to, value)?;
        Ok(())
    }

    /// CBW, CWDE and CDQE: the accumulator gets its lower half with its sign.
    #[tactic(auto, unfolding(crate::specs::Lifted::lifts, crate::specs::Operands::register_formula))]
    pub fn widen_accumulator(&mut self, site: Site, width: Width) -> Result<(), NoMemory>
        ensures { OnOk result (so_far self.old (lifts site.at site.after (instructions.Widen width)) ≡ so_far self.new done) }
    {
        let narrow = half(width);
        let value = WithSign {
            width: narrow,
            value: part_of(narrow, RAX),
        };
        self.put(width, RAX, Clean { width, value })
    }

    /// CWD, CDQ and CQO: the upper half gets the accumulator's sign.
    #[tactic(auto, unfolding(crate::specs::Lifted::lifts, crate::specs::Operands::register_formula))]
    pub fn fill_with_sign(&mut self, site: Site, width: Width) -> Result<(), NoMemory>
        ensures { OnOk result (so_far self.old (lifts site.at site.after (instructions.SignFill width)) ≡ so_far self.new done) }
    {
        let signed = WithSign {
            width,
            value: part_of(width, RAX),
        };
        let value = Operate {
            op: IrOp::Sar,
            first: signed,
            second: Constant(63),
        };
        self.put(width, upper(width), Clean { width, value })
    }

    /// POP.
    pub fn pop(&mut self, site: Site, to: &Operand) -> Result<(), NoMemory>
        ensures { OnOk result (so_far self.old (lifts site.at site.after (instructions.Pop to.now)) ≡ so_far self.new done) }
    {
        let value = self.pop_value(site)?;
        self.move_to(site, Width::Quad, to, value)?;
        Ok(())
    }

    /// RET: the return address is popped into the second temporary.
    pub fn pop_return(&mut self, site: Site) -> Result<(), NoMemory>
        ensures { OnOk result (so_far self.old (lifts site.at site.after instructions.Ret) ≡ so_far self.new done) }
    {
        let _address = self.pop_value(site)?;
        Ok(())
    }
}
