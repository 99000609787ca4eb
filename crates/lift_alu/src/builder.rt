ghost use Rattle.std.specs.Prelude.{◌≡◌, ◌+◌, ℕ, [], ◌∷◌, ◌++◌, IfOk, OnOk};
ghost use Rattle.lift_alu.specs.Formulas.{Formula, Lifting, Kept, size, place, computes, temp, keeps, sets_register, sets_flag, loads, stores};
ghost use Rattle.lift_alu.specs.SoFar.{so_far};

use crate::formula::Compute;
use crate::small_steps::SmallSteps;
use ev_graph::NoMemory;
use limm_ir::{IrStep, Temp};
use std::alloc::Global;

/// The steps of an instruction while they are built, and the number of the next temporary.
///
/// Clauses say of what is left to do, for any continuation, that what is built and left is the same
/// before and after. Numbers beyond those of temporaries answer as if memory ran out.
#[derive(Drop)]
pub(crate) struct Builder {
    pub steps: SmallSteps,
    pub next: u32,
}

impl Builder {
    /// No steps so far; their temporaries begin at `next`.
    pub fn new(alloc: Global, next: u32) -> Builder
        ensures { result ≡ record { steps = []; next = next } }
    {
        Builder {
            steps: SmallSteps::new(alloc),
            next,
        }
    }

    /// Puts a step behind the others.
    pub fn push(&mut self, step: IrStep) -> Result<(), NoMemory>
        ensures { OnOk result (self.new ≡ record { steps = self.old.steps ++ step ∷ []; next = self.old.next }) }
    {
        self.steps.push(step)
    }

    /// A temporary that no step has set.
    pub fn fresh(&mut self) -> Result<Temp, NoMemory>
        ensures temp { IfOk result (λ t. t ≡ temp self.old.next) }
        ensures next { OnOk result (self.new ≡ record { steps = self.old.steps; next = self.old.next + 1 }) }
    {
        let fresh = Temp(self.next);
        self.next = self.next.checked_add(1).ok_or(NoMemory)?;
        Ok(fresh)
    }

    /// Computes a value, and keeps it in a temporary.
    pub fn keep<E: Compute>(&mut self, formula: E) -> Result<Temp, NoMemory>
        ensures { IfOk result (λ t. (rest : Formula → Lifting) → so_far self.old (keeps (E.formula formula) rest) ≡ so_far self.new (rest (Kept t.0))) }
    {
        let kept = formula.compute(self)?;
        Ok(kept)
    }

    /// A register gets a value.
    pub fn set_register<E: Compute>(&mut self, register: u8, formula: E) -> Result<(), NoMemory>
        ensures { OnOk result ((rest : Lifting) → so_far self.old (sets_register register (E.formula formula) rest) ≡ so_far self.new rest) }
    {
        let value = formula.compute(self)?;
        self.push(IrStep::SetReg(register, value))?;
        Ok(())
    }

    /// A flag gets a value.
    pub fn set_flag<E: Compute>(&mut self, flag: u8, formula: E) -> Result<(), NoMemory>
        ensures { OnOk result ((rest : Lifting) → so_far self.old (sets_flag flag (E.formula formula) rest) ≡ so_far self.new rest) }
    {
        let value = formula.compute(self)?;
        self.push(IrStep::SetFlag(flag, value))?;
        Ok(())
    }

    /// Reads at an address, for the instruction at `at`, and keeps what is read.
    pub fn load<E: Compute>(&mut self, at: u64, size: u8, address: E) -> Result<Temp, NoMemory>
        ensures { IfOk result (λ t. (rest : Formula → Lifting) → so_far self.old (loads at size (E.formula address) rest) ≡ so_far self.new (rest (Kept t.0))) }
    {
        let address = address.compute(self)?;
        let loaded = self.fresh()?;
        self.push(IrStep::Load(loaded, address, size, at))?;
        Ok(loaded)
    }

    /// Writes a value at an address, for the instruction at `at`.
    pub fn store(&mut self, at: u64, size: u8, address: Temp, value: Temp) -> Result<(), NoMemory>
        ensures { OnOk result ((rest : Lifting) → so_far self.old (stores at size address.0 value.0 rest) ≡ so_far self.new rest) }
    {
        self.push(IrStep::Store(address, value, size, at))?;
        Ok(())
    }
}
