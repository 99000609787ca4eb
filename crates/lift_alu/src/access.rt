ghost use Rattle.std.specs.Prelude.{◌≡◌, ℕ, ◌++◌, IfOk, OnOk};
ghost use Rattle.lift_alu.specs.Formulas.{Formula, Lifting, Kept};
ghost use Rattle.lift_alu.specs.Lifted.{Place, puts, fetches, finds, reads_there, writes_there, puts_there, moves, puts_operand};
ghost use Rattle.lift_alu.specs.SoFar.{so_far};
ghost use Rattle.lift_alu.specs.There.{place_of};

use crate::builder::Builder;
use crate::formula::{Compute, Constant};
use crate::operands::{Clean, FromPart, Merged, address_of, bytes};
use ev_graph::NoMemory;
use limm_ir::Temp;
use x64_syntax::{Operand, Reg, Width};

/// The address of an instruction, and the address behind it.
#[derive(Clone, Copy)]
pub(crate) struct Site {
    pub at: u64,
    pub after: u64,
}

/// An operand that gets a value: a register, or memory whose address a temporary holds.
#[derive(Clone, Copy)]
pub(crate) enum There {
    Register(Reg),
    Memory(Temp),
    Nowhere,
}

/// What a register holds at a width.
pub(crate) fn part_of(width: Width, register: Reg) -> Clean<FromPart>
    ensures { result ≡ record { width = width; value = record { 0 = register } } }
{
    Clean {
        width,
        value: FromPart(register),
    }
}

impl Builder {
    /// Keeps the value of an operand.
    #[tactic(auto, unfolding(crate::specs::Lifted::fetches, crate::specs::Operands::register_formula, crate::specs::Operands::address_formula))]
    pub fn fetch(&mut self, site: Site, width: Width, operand: &Operand) -> Result<Temp, NoMemory>
        ensures { IfOk result (λ t. (rest : Formula → Lifting) → so_far self.old (fetches site.at site.after width operand.now rest) ≡ so_far self.new (rest (Kept t.0))) }
    {
        match operand {
            Operand::Reg(register) => self.keep(part_of(width, *register)),
            Operand::Mem(memory) => self.load(
                site.at,
                bytes(width),
                address_of(memory, site.after),
            ),
            Operand::Imm(number) => self.keep(Constant(*number)),
        }
    }

    /// Where an operand is that gets a value; the address of memory is kept.
    #[tactic(auto, unfolding(crate::specs::Lifted::finds, crate::specs::Operands::address_formula))]
    pub fn find(&mut self, site: Site, to: &Operand) -> Result<There, NoMemory>
        ensures { IfOk result (λ there. (rest : Place → Lifting) → so_far self.old (finds site.at site.after to.now rest) ≡ so_far self.new (rest (place_of there))) }
    {
        match to {
            Operand::Reg(register) => Ok(There::Register(*register)),
            Operand::Mem(memory) => {
                let address = self.keep(address_of(memory, site.after))?;
                Ok(There::Memory(address))
            }
            Operand::Imm(_) => Ok(There::Nowhere),
        }
    }

    /// Keeps what is there now.
    #[tactic(auto, unfolding(crate::specs::Lifted::reads_there, crate::specs::Operands::register_formula))]
    pub fn read_there(&mut self, site: Site, width: Width, there: There) -> Result<Temp, NoMemory>
        ensures { IfOk result (λ t. (rest : Formula → Lifting) → so_far self.old (reads_there site.at site.after width (place_of there) rest) ≡ so_far self.new (rest (Kept t.0))) }
    {
        match there {
            There::Register(register) => self.keep(part_of(width, register)),
            There::Memory(address) => self.load(site.at, bytes(width), address),
            There::Nowhere => self.keep(Constant(0)),
        }
    }

    /// Memory gets a value.
    #[tactic(auto, unfolding(crate::specs::Lifted::writes_there))]
    pub fn write_there(
        &mut self,
        site: Site,
        width: Width,
        there: There,
        value: Temp,
    ) -> Result<(), NoMemory>
        ensures { OnOk result ((rest : Lifting) → so_far self.old (writes_there site.at site.after width (place_of there) (Kept value.0) rest) ≡ so_far self.new rest) }
    {
        match there {
            There::Memory(address) => self.store(site.at, bytes(width), address, value),
            There::Register(_) | There::Nowhere => Ok(()),
        }
    }

    /// A register gets a value at a width.
    #[tactic(auto, unfolding(crate::specs::Lifted::puts))]
    pub fn put<E: Compute>(&mut self, width: Width, register: Reg, value: E) -> Result<(), NoMemory>
        ensures { OnOk result ((rest : Lifting) → so_far self.old (puts width register (E.formula value) rest) ≡ so_far self.new rest) }
    {
        let merged = Merged {
            width,
            register,
            value,
        };
        self.set_register(register.number, merged)
    }

    /// A register gets a value, where it is one that was found.
    #[tactic(auto, unfolding(crate::specs::Lifted::puts_there))]
    pub fn put_there(&mut self, width: Width, there: There, value: Temp) -> Result<(), NoMemory>
        ensures { OnOk result ((at after : ℕ) (rest : Lifting) → so_far self.old (puts_there at after width (place_of there) (Kept value.0) rest) ≡ so_far self.new rest) }
    {
        match there {
            There::Register(register) => self.put(width, register, value),
            There::Memory(_) | There::Nowhere => Ok(()),
        }
    }

    /// A register operand gets a value.
    #[tactic(auto, unfolding(crate::specs::Lifted::puts_operand))]
    pub fn put_operand<E: Compute>(
        &mut self,
        width: Width,
        to: &Operand,
        value: E,
    ) -> Result<(), NoMemory>
        ensures { OnOk result ((at after : ℕ) (rest : Lifting) → so_far self.old (puts_operand at after width to.now (E.formula value) rest) ≡ so_far self.new rest) }
    {
        match to {
            Operand::Reg(register) => self.put(width, *register, value),
            Operand::Mem(_) | Operand::Imm(_) => Ok(()),
        }
    }

    /// An operand gets a value.
    #[tactic(auto, unfolding(crate::specs::Lifted::moves))]
    pub fn move_to(
        &mut self,
        site: Site,
        width: Width,
        to: &Operand,
        value: Temp,
    ) -> Result<(), NoMemory>
        ensures { OnOk result ((rest : Lifting) → so_far self.old (moves site.at site.after width to.now (Kept value.0) rest) ≡ so_far self.new rest) }
    {
        let there = self.find(site, to)?;
        self.write_there(site, width, there, value)?;
        self.put_there(width, there, value)?;
        Ok(())
    }
}
