ghost use Rattle.std.specs.Prelude.{◌≡◌, ◌++◌, OnOk};
ghost use Rattle.lift_alu.specs.Formulas.{Kept, Lifting, done};
ghost use Rattle.lift_alu.specs.Lifted.{puts_bytes, puts_parts, puts_quotient, divides_by, divides};
ghost use Rattle.lift_alu.specs.Quotients.{double as double_of, traps_if, sets_zeros};
ghost use Rattle.lift_alu.specs.SoFar.{so_far};

use crate::access::{Site, part_of};
use crate::builder::Builder;
use crate::formula::{Compute, Constant, Operate, RegisterNow, operation, operation_by};
use crate::moves::{RAX, RDX};
use crate::operands::{Clean, WithSign, bits};
use crate::products::Cut;
use ev_graph::{NoMemory, TrapKind};
use limm_ir::{IrOp, IrStep, Temp};
use x64_syntax::{Operand, Width};

/// Twice a width, at most 64 bits.
fn double(width: Width) -> Width
    ensures { result ≡ double_of width }
{
    match width {
        Width::Byte => Width::Word,
        Width::Word => Width::Long,
        Width::Long | Width::Quad => Width::Quad,
    }
}

/// The double word in the accumulator and its upper half.
#[derive(Clone, Copy)]
struct DoubleWord {
    width: Width,
}

impl Compute for DoubleWord {
    ghost use Rattle.lift_alu.specs.Quotients.{double_word};

    ghost formula = { λ d. double_word d.width };

    #[tactic(auto, unfolding(crate::specs::Operands::register_formula))]
    fn compute(self, builder: &mut Builder) -> Result<Temp, NoMemory> {
        let width = self.width;
        let upper = operation_by(IrOp::Shl, part_of(width, RDX), bits(width));
        match width {
            Width::Byte => RegisterNow(0).compute(builder),
            Width::Word | Width::Long | Width::Quad => {
                operation(IrOp::Or, upper, part_of(width, RAX)).compute(builder)
            }
        }
    }
}

/// The dividend, as 64 bits.
#[derive(Clone, Copy)]
struct Dividend {
    sign: bool,
    width: Width,
}

impl Compute for Dividend {
    ghost use Rattle.lift_alu.specs.Quotients.{dividend_formula};

    ghost formula = { λ d. dividend_formula d.sign d.width };

    fn compute(self, builder: &mut Builder) -> Result<Temp, NoMemory> {
        let width = double(self.width);
        let value = DoubleWord { width: self.width };
        if self.sign {
            WithSign { width, value }.compute(builder)
        } else {
            match self.width {
                Width::Byte => Clean { width, value }.compute(builder),
                Width::Word | Width::Long | Width::Quad => value.compute(builder),
            }
        }
    }
}

/// The divisor, as 64 bits.
#[derive(Clone, Copy)]
struct Divisor {
    sign: bool,
    width: Width,
    value: Temp,
}

impl Compute for Divisor {
    ghost use Rattle.lift_alu.specs.Formulas.{Kept};
    ghost use Rattle.lift_alu.specs.Quotients.{divisor_formula};

    ghost formula = { λ d. divisor_formula d.sign d.width (Kept d.value.0) };

    fn compute(self, builder: &mut Builder) -> Result<Temp, NoMemory> {
        let Divisor { sign, width, value } = self;
        if sign {
            WithSign { width, value }.compute(builder)
        } else {
            value.compute(builder)
        }
    }
}

/// 64 bits of a quotient: without sign, or of what the operands mean where `sign` holds.
#[derive(Clone, Copy)]
struct Quotient {
    sign: bool,
    dividend: Temp,
    divisor: Temp,
}

impl Compute for Quotient {
    ghost use Rattle.lift_alu.specs.Formulas.{Kept};
    ghost use Rattle.lift_alu.specs.Quotients.{quotient_formula};

    ghost formula = { λ q. quotient_formula q.sign (Kept q.dividend.0) (Kept q.divisor.0) };

    fn compute(self, builder: &mut Builder) -> Result<Temp, NoMemory> {
        if self.sign {
            operation(IrOp::DivS, self.dividend, self.divisor).compute(builder)
        } else {
            operation(IrOp::DivU, self.dividend, self.divisor).compute(builder)
        }
    }
}

/// A value that is 0 just where a quotient fits a width.
#[derive(Clone, Copy)]
struct BeyondRange {
    sign: bool,
    width: Width,
    quotient: Temp,
}

impl Compute for BeyondRange {
    ghost use Rattle.lift_alu.specs.Formulas.{Kept};
    ghost use Rattle.lift_alu.specs.Quotients.{range_formula};

    ghost formula = { λ r. range_formula r.sign r.width (Kept r.quotient.0) };

    fn compute(self, builder: &mut Builder) -> Result<Temp, NoMemory> {
        let width = self.width;
        let value = self.quotient;
        if self.sign {
            operation(IrOp::Xor, value, WithSign { width, value }).compute(builder)
        } else {
            operation_by(IrOp::Shr, value, bits(width)).compute(builder)
        }
    }
}

/// What a quotient's product leaves of the dividend.
#[derive(Clone, Copy)]
struct Remainder {
    dividend: Temp,
    divisor: Temp,
    quotient: Temp,
}

impl Compute for Remainder {
    ghost use Rattle.lift_alu.specs.Formulas.{Kept};
    ghost use Rattle.lift_alu.specs.Quotients.{remainder_formula};

    ghost formula = { λ r. remainder_formula (Kept r.dividend.0) (Kept r.divisor.0) (Kept r.quotient.0) };

    fn compute(self, builder: &mut Builder) -> Result<Temp, NoMemory> {
        let product = operation(IrOp::Mul, self.quotient, self.divisor);
        operation(IrOp::Sub, self.dividend, product).compute(builder)
    }
}

/// A remainder above a quotient, each of a byte.
#[derive(Clone, Copy)]
struct Bytes {
    sign: bool,
    quotient: Temp,
    remainder: Temp,
}

impl Compute for Bytes {
    ghost use Rattle.lift_alu.specs.Formulas.{Kept};
    ghost use Rattle.lift_alu.specs.Quotients.{bytes_formula};

    ghost formula = { λ b. bytes_formula b.sign (Kept b.quotient.0) (Kept b.remainder.0) };

    fn compute(self, builder: &mut Builder) -> Result<Temp, NoMemory> {
        let sign = self.sign;
        let width = Width::Byte;
        let upper = Cut {
            sign,
            width,
            value: self.remainder,
        };
        let lower = Cut {
            sign,
            width,
            value: self.quotient,
        };
        let moved = operation_by(IrOp::Shl, upper, 8);
        operation(IrOp::Or, moved, lower).compute(builder)
    }
}

impl Builder {
    /// The thread ends by a trap where a value is not 0.
    pub fn trap_if<E: Compute>(&mut self, kind: TrapKind, formula: E) -> Result<(), NoMemory>
        ensures { OnOk result ((rest : Lifting) → so_far self.old (traps_if kind (E.formula formula) rest) ≡ so_far self.new rest) }
    {
        let value = formula.compute(self)?;
        self.push(IrStep::TrapIf(value, kind))?;
        Ok(())
    }

    /// All four flags are 0.
    fn set_zeros(&mut self) -> Result<(), NoMemory>
        ensures { OnOk result ((rest : Lifting) → so_far self.old (sets_zeros rest) ≡ so_far self.new rest) }
    {
        let zero = self.keep(Constant(0))?;
        self.set_pairs(zero, zero)?;
        Ok(())
    }

    /// Quotient and remainder of bytes get into AX.
    fn put_bytes(&mut self, sign: bool, quotient: Temp, remainder: Temp) -> Result<(), NoMemory>
        ensures { OnOk result (so_far self.old (puts_bytes sign (Kept quotient.0) (Kept remainder.0)) ≡ so_far self.new done) }
    {
        self.set_zeros()?;
        let bytes = Bytes {
            sign,
            quotient,
            remainder,
        };
        self.put(Width::Word, RAX, bytes)?;
        Ok(())
    }

    /// The quotient gets into the accumulator, and the remainder into its upper half.
    fn put_parts(
        &mut self,
        sign: bool,
        width: Width,
        quotient: Temp,
        remainder: Temp,
    ) -> Result<(), NoMemory>
        ensures { OnOk result (so_far self.old (puts_parts sign width (Kept quotient.0) (Kept remainder.0)) ≡ so_far self.new done) }
    {
        self.set_zeros()?;
        let low = Cut {
            sign,
            width,
            value: quotient,
        };
        let high = Cut {
            sign,
            width,
            value: remainder,
        };
        self.put(width, RAX, low)?;
        self.put(width, RDX, high)?;
        Ok(())
    }

    /// Where quotient and remainder get.
    #[tactic(auto, unfolding(crate::specs::Lifted::puts_quotient))]
    fn put_quotient(
        &mut self,
        sign: bool,
        width: Width,
        quotient: Temp,
        remainder: Temp,
    ) -> Result<(), NoMemory>
        ensures { OnOk result (so_far self.old (puts_quotient sign width (Kept quotient.0) (Kept remainder.0)) ≡ so_far self.new done) }
    {
        match width {
            Width::Byte => self.put_bytes(sign, quotient, remainder),
            Width::Word | Width::Long | Width::Quad => {
                self.put_parts(sign, width, quotient, remainder)
            }
        }
    }

    /// An operand divides the accumulator's double word, where it is not 0 and the quotient fits.
    fn divide_by(&mut self, sign: bool, width: Width, by: Temp) -> Result<(), NoMemory>
        ensures { OnOk result (so_far self.old (divides_by sign width (Kept by.0)) ≡ so_far self.new done) }
    {
        let is_zero = Operate {
            op: IrOp::Eq,
            first: by,
            second: Constant(0),
        };
        self.trap_if(TrapKind::Divide, is_zero)?;
        let dividend = self.keep(Dividend { sign, width })?;
        let divisor = self.keep(Divisor {
            sign,
            width,
            value: by,
        })?;
        let quotient = self.keep(Quotient {
            sign,
            dividend,
            divisor,
        })?;
        let beyond = BeyondRange {
            sign,
            width,
            quotient,
        };
        self.trap_if(TrapKind::Divide, beyond)?;
        let remainder = self.keep(Remainder {
            dividend,
            divisor,
            quotient,
        })?;
        self.put_quotient(sign, width, quotient, remainder)?;
        Ok(())
    }

    /// DIV, or IDIV where `sign` holds. A divisor in memory is read before the trap for 0.
    pub fn divide(
        &mut self,
        site: Site,
        sign: bool,
        width: Width,
        from: &Operand,
    ) -> Result<(), NoMemory>
        ensures { OnOk result (so_far self.old (divides site.at site.after sign width from.now) ≡ so_far self.new done) }
    {
        let by = self.fetch(site, width, from)?;
        self.divide_by(sign, width, by)?;
        Ok(())
    }
}
