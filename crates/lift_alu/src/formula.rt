ghost use Rattle.std.specs.Prelude.{◌≡◌, ◌+◌, ◌++◌, IfOk, OnOk};

use crate::builder::Builder;
use ev_graph::NoMemory;
use limm_ir::{IrOp, IrStep, Temp};

/// A value that steps compute.
pub(crate) trait Compute: Copy {
    ghost use Rattle.lift_alu.specs.Formulas.{Formula, size, place, computes, temp};

    /// The value as a formula.
    ghost formula: { Self → Formula };

    /// Builds the steps of the formula, and answers the temporary that holds its value.
    fn compute(self, builder: &mut Builder) -> Result<Temp, NoMemory>
        ensures place { IfOk result (λ t. t ≡ temp (place builder.old.next (formula self))) }
        ensures steps { OnOk result (builder.new ≡ record { steps = builder.old.steps ++ computes builder.old.next (formula self); next = builder.old.next + size (formula self) }) };
}

impl Compute for Temp {
    ghost use Rattle.lift_alu.specs.Formulas.{Kept};

    ghost formula = { λ t. Kept t.0 };

    fn compute(self, _builder: &mut Builder) -> Result<Temp, NoMemory> {
        Ok(self)
    }
}

/// A number.
#[derive(Clone, Copy)]
pub(crate) struct Constant(pub u64);

impl Compute for Constant {
    ghost use Rattle.lift_alu.specs.Formulas.{Number};

    ghost formula = { λ n. Number n.0 };

    fn compute(self, builder: &mut Builder) -> Result<Temp, NoMemory> {
        let temp = builder.fresh()?;
        builder.push(IrStep::Const(temp, self.0))?;
        Ok(temp)
    }
}

/// What a register is now.
#[derive(Clone, Copy)]
pub(crate) struct RegisterNow(pub u8);

impl Compute for RegisterNow {
    ghost use Rattle.lift_alu.specs.Formulas.{Register};

    ghost formula = { λ r. Register r.0 };

    fn compute(self, builder: &mut Builder) -> Result<Temp, NoMemory> {
        let temp = builder.fresh()?;
        builder.push(IrStep::GetReg(temp, self.0))?;
        Ok(temp)
    }
}

/// What a flag is now.
#[derive(Clone, Copy)]
pub(crate) struct FlagNow(pub u8);

impl Compute for FlagNow {
    ghost use Rattle.lift_alu.specs.Formulas.{Flag};

    ghost formula = { λ f. Flag f.0 };

    fn compute(self, builder: &mut Builder) -> Result<Temp, NoMemory> {
        let temp = builder.fresh()?;
        builder.push(IrStep::GetFlag(temp, self.0))?;
        Ok(temp)
    }
}

/// An operation on two values.
#[derive(Clone, Copy)]
pub(crate) struct Operate<A, B> {
    pub op: IrOp,
    pub first: A,
    pub second: B,
}

impl<A: Compute, B: Compute> Compute for Operate<A, B> {
    ghost use Rattle.lift_alu.specs.Formulas.{Operation};

    ghost formula = { λ o. Operation o.op (A.formula o.first) (B.formula o.second) };

    fn compute(self, builder: &mut Builder) -> Result<Temp, NoMemory> {
        let first = self.first.compute(builder)?;
        let second = self.second.compute(builder)?;
        let temp = builder.fresh()?;
        builder.push(IrStep::Op(self.op, temp, first, second))?;
        Ok(temp)
    }
}

/// An operation on two values.
pub(crate) fn operation<A, B>(op: IrOp, first: A, second: B) -> Operate<A, B>
    ensures { result ≡ record { op = op; first = first; second = second } }
{
    Operate { op, first, second }
}

/// An operation on a value and a number.
pub(crate) fn operation_by<A>(op: IrOp, first: A, number: u64) -> Operate<A, Constant>
    ensures { result ≡ record { op = op; first = first; second = record { 0 = number } } }
{
    Operate {
        op,
        first,
        second: Constant(number),
    }
}

/// One of two values by a condition: the first where it is not 0.
#[derive(Clone, Copy)]
pub(crate) struct Choose<C, A, B> {
    pub condition: C,
    pub first: A,
    pub second: B,
}

impl<C: Compute, A: Compute, B: Compute> Compute for Choose<C, A, B> {
    ghost use Rattle.lift_alu.specs.Formulas.{Choice};

    ghost formula = { λ o. Choice (C.formula o.condition) (A.formula o.first) (B.formula o.second) };

    fn compute(self, builder: &mut Builder) -> Result<Temp, NoMemory> {
        let condition = self.condition.compute(builder)?;
        let first = self.first.compute(builder)?;
        let second = self.second.compute(builder)?;
        let temp = builder.fresh()?;
        builder.push(IrStep::Select(temp, condition, first, second))?;
        Ok(temp)
    }
}
