ghost use Rattle.std.specs.Prelude.{◌≡◌, [], ◌∷◌, ◌++◌, OnOk};

use ev_graph::NoMemory;
use limm_ir::IrStep;
use smallvec::SmallVec;
use std::alloc::Global;
use std::marker::Model;

/// A few steps, which take no memory up to 32 of them. Contracts see them as a list.
#[derive(Drop)]
pub struct SmallSteps {
    steps: SmallVec<IrStep, 32>,
}

impl Model for SmallSteps {
    ghost use Rattle.std.specs.Prelude.{List};
    ghost use Rattle.limm_ir.specs.declared.step.IrStep.{IrStep};

    ghost Value = { List IrStep };

    ghost view = { λ few. few.steps.items };
}

impl SmallSteps {
    /// No steps.
    pub(crate) fn new(alloc: Global) -> SmallSteps
        ensures { result ≡ [] }
    {
        SmallSteps {
            steps: SmallVec::new(alloc),
        }
    }

    /// Puts a step behind the others.
    pub(crate) fn push(&mut self, step: IrStep) -> Result<(), NoMemory>
        ensures { OnOk result (self.new ≡ self.old ++ step ∷ []) }
    {
        self.steps.push(step)?;
        Ok(())
    }

    /// The steps, in order.
    pub fn as_slice(&self) -> &[IrStep]
        ensures { result.now ≡ self.now }
    {
        self.steps.as_slice()
    }
}
