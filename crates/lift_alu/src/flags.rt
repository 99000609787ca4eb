ghost use Rattle.std.specs.Prelude.{◌≡◌, ◌++◌, OnOk};
ghost use Rattle.lift_alu.specs.Formulas.{Kept, Lifting};
ghost use Rattle.lift_alu.specs.Flags.{sets_result, sets_flags};
ghost use Rattle.lift_alu.specs.SoFar.{so_far};

use crate::builder::Builder;
use crate::formula::{Compute, Constant, FlagNow, Operate, operation, operation_by};
use crate::operands::bits;
use ev_graph::NoMemory;
use limm_ir::{IrOp, Temp};
use x64_syntax::Width;

pub(crate) const CARRY: u8 = 0;

pub(crate) const ZERO: u8 = 1;

pub(crate) const SIGN: u8 = 2;

pub(crate) const OVERFLOW: u8 = 3;

/// The highest bit of a value of a width.
#[derive(Clone, Copy)]
pub(crate) struct Top<E> {
    pub width: Width,
    pub value: E,
}

impl<E: Compute> Compute for Top<E> {
    ghost use Rattle.lift_alu.specs.Flags.{top};

    ghost formula = { λ t. top t.width (E.formula t.value) };

    fn compute(self, builder: &mut Builder) -> Result<Temp, NoMemory> {
        operation_by(IrOp::Shr, self.value, bits(self.width) - 1).compute(builder)
    }
}

/// Whether a sum of two values overflows.
#[derive(Clone, Copy)]
pub(crate) struct SumOverflow<B> {
    pub width: Width,
    pub first: Temp,
    pub second: B,
    pub sum: Temp,
}

impl<B: Compute> Compute for SumOverflow<B> {
    ghost use Rattle.lift_alu.specs.Formulas.{Kept};
    ghost use Rattle.lift_alu.specs.Flags.{sum_overflow};

    ghost formula = { λ o. sum_overflow o.width (Kept o.first.0) (B.formula o.second) (Kept o.sum.0) };

    fn compute(self, builder: &mut Builder) -> Result<Temp, NoMemory> {
        let first = operation(IrOp::Xor, self.first, self.sum);
        let second = operation(IrOp::Xor, self.second, self.sum);
        let value = operation(IrOp::And, first, second);
        let overflow = Top {
            width: self.width,
            value,
        };
        overflow.compute(builder)
    }
}

/// Whether a difference of two values overflows.
#[derive(Clone, Copy)]
pub(crate) struct DifferenceOverflow<B> {
    pub width: Width,
    pub first: Temp,
    pub second: B,
    pub difference: Temp,
}

impl<B: Compute> Compute for DifferenceOverflow<B> {
    ghost use Rattle.lift_alu.specs.Formulas.{Kept};
    ghost use Rattle.lift_alu.specs.Flags.{difference_overflow};

    ghost formula = { λ o. difference_overflow o.width (Kept o.first.0) (B.formula o.second) (Kept o.difference.0) };

    fn compute(self, builder: &mut Builder) -> Result<Temp, NoMemory> {
        let first = operation(IrOp::Xor, self.first, self.second);
        let second = operation(IrOp::Xor, self.first, self.difference);
        let value = operation(IrOp::And, first, second);
        let overflow = Top {
            width: self.width,
            value,
        };
        overflow.compute(builder)
    }
}

/// The condition of a code.
#[derive(Clone, Copy)]
pub(crate) struct Condition {
    pub code: u8,
}

impl Compute for Condition {
    ghost use Rattle.lift_alu.specs.Flags.{condition_formula};

    ghost formula = { λ c. condition_formula c.code };

    #[tactic(auto, unfolding(crate::specs::Flags::condition_formula))]
    fn compute(self, builder: &mut Builder) -> Result<Temp, NoMemory> {
        if self.code % 2 == 1 {
            let opposite = EvenCondition {
                code: self.code - 1,
            };
            operation_by(IrOp::Xor, opposite, 1).compute(builder)
        } else {
            EvenCondition { code: self.code }.compute(builder)
        }
    }
}

/// The condition of an even code.
#[derive(Clone, Copy)]
struct EvenCondition {
    code: u8,
}

impl Compute for EvenCondition {
    ghost use Rattle.lift_alu.specs.Flags.{even_formula};

    ghost formula = { λ c. even_formula c.code };

    fn compute(self, builder: &mut Builder) -> Result<Temp, NoMemory> {
        let less = operation(IrOp::Xor, FlagNow(SIGN), FlagNow(OVERFLOW));
        match self.code {
            0 => FlagNow(OVERFLOW).compute(builder),
            2 => FlagNow(CARRY).compute(builder),
            4 => FlagNow(ZERO).compute(builder),
            6 => operation(IrOp::Or, FlagNow(CARRY), FlagNow(ZERO)).compute(builder),
            8 => FlagNow(SIGN).compute(builder),
            12 => less.compute(builder),
            _ => operation(IrOp::Or, FlagNow(ZERO), less).compute(builder),
        }
    }
}

impl Builder {
    /// OF, ZF and SF, of a result.
    pub fn set_result<O: Compute>(
        &mut self,
        width: Width,
        overflow: O,
        value: Temp,
    ) -> Result<(), NoMemory>
        ensures { OnOk result ((rest : Lifting) → so_far self.old (sets_result width (O.formula overflow) (Kept value.0) rest) ≡ so_far self.new rest) }
    {
        let zero = Operate {
            op: IrOp::Eq,
            first: value,
            second: Constant(0),
        };
        self.set_flag(OVERFLOW, overflow)?;
        self.set_flag(ZERO, zero)?;
        self.set_flag(SIGN, Top { width, value })?;
        Ok(())
    }

    /// All four flags, CF last, since its formula may read it.
    pub fn set_flags<O: Compute, C: Compute>(
        &mut self,
        width: Width,
        overflow: O,
        carry: C,
        value: Temp,
    ) -> Result<(), NoMemory>
        ensures { OnOk result ((rest : Lifting) → so_far self.old (sets_flags width (O.formula overflow) (C.formula carry) (Kept value.0) rest) ≡ so_far self.new rest) }
    {
        self.set_result(width, overflow, value)?;
        self.set_flag(CARRY, carry)?;
        Ok(())
    }
}
