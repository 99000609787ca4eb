ghost use Rattle.std.specs.Prelude.{◌≡◌, ◌++◌, IfOk, OnOk};
ghost use Rattle.lift_alu.specs.Formulas.{Formula, Kept, Lifting, done, keeps};
ghost use Rattle.lift_alu.specs.Lifted.{puts_word, puts_halves, puts_product, multiplies, multiplies_into};
ghost use Rattle.lift_alu.specs.Operands.{register_formula};
ghost use Rattle.lift_alu.specs.Products.{sets_pairs, sets_over};
ghost use Rattle.lift_alu.specs.SoFar.{so_far};

use crate::access::{Site, part_of};
use crate::builder::Builder;
use crate::flags::{CARRY, OVERFLOW, SIGN, ZERO};
use crate::formula::{Compute, Constant, operation, operation_by};
use crate::moves::{RAX, RDX};
use crate::operands::{Clean, WithSign, bits};
use ev_graph::NoMemory;
use limm_ir::{IrOp, Temp};
use x64_syntax::{Operand, Reg, Width};

/// Whether two values differ.
#[derive(Clone, Copy)]
struct Differs<A, B> {
    first: A,
    second: B,
}

impl<A: Compute, B: Compute> Compute for Differs<A, B> {
    ghost use Rattle.lift_alu.specs.Products.{differs};

    ghost formula = { λ d. differs (A.formula d.first) (B.formula d.second) };

    fn compute(self, builder: &mut Builder) -> Result<Temp, NoMemory> {
        let same = operation(IrOp::Eq, self.first, self.second);
        operation_by(IrOp::Xor, same, 1).compute(builder)
    }
}

/// The low bits of a value as 64 bits, by zeros or by the sign.
#[derive(Clone, Copy)]
struct Extension {
    sign: bool,
    width: Width,
    value: Temp,
}

impl Compute for Extension {
    ghost use Rattle.lift_alu.specs.Formulas.{Kept};
    ghost use Rattle.lift_alu.specs.Products.{extension};

    ghost formula = { λ e. extension e.sign e.width (Kept e.value.0) };

    fn compute(self, builder: &mut Builder) -> Result<Temp, NoMemory> {
        let Extension { sign, width, value } = self;
        if sign {
            WithSign { width, value }.compute(builder)
        } else {
            Clean { width, value }.compute(builder)
        }
    }
}

/// The low bits of a value that has no others where it has no sign.
#[derive(Clone, Copy)]
pub(crate) struct Cut<E> {
    pub sign: bool,
    pub width: Width,
    pub value: E,
}

impl<E: Compute> Compute for Cut<E> {
    ghost use Rattle.lift_alu.specs.Products.{cut};

    ghost formula = { λ c. cut c.sign c.width (E.formula c.value) };

    fn compute(self, builder: &mut Builder) -> Result<Temp, NoMemory> {
        let Cut { sign, width, value } = self;
        if sign {
            Clean { width, value }.compute(builder)
        } else {
            value.compute(builder)
        }
    }
}

/// 64 bits of the product of two values: without sign, or of what they mean where `sign` holds.
#[derive(Clone, Copy)]
struct Product {
    sign: bool,
    width: Width,
    first: Temp,
    second: Temp,
}

impl Compute for Product {
    ghost use Rattle.lift_alu.specs.Formulas.{Kept};
    ghost use Rattle.lift_alu.specs.Products.{product_formula};

    ghost formula = { λ m. product_formula m.sign m.width (Kept m.first.0) (Kept m.second.0) };

    fn compute(self, builder: &mut Builder) -> Result<Temp, NoMemory> {
        let width = self.width;
        if self.sign {
            let first = WithSign {
                width,
                value: self.first,
            };
            let second = WithSign {
                width,
                value: self.second,
            };
            operation(IrOp::Mul, first, second).compute(builder)
        } else {
            operation(IrOp::Mul, self.first, self.second).compute(builder)
        }
    }
}

/// The upper half of the double product of two values of 64 bits.
#[derive(Clone, Copy)]
struct UpperWord {
    sign: bool,
    first: Temp,
    second: Temp,
}

impl Compute for UpperWord {
    ghost use Rattle.lift_alu.specs.Formulas.{Kept};
    ghost use Rattle.lift_alu.specs.Products.{upper_word};

    ghost formula = { λ u. upper_word u.sign (Kept u.first.0) (Kept u.second.0) };

    fn compute(self, builder: &mut Builder) -> Result<Temp, NoMemory> {
        if self.sign {
            operation(IrOp::HighS, self.first, self.second).compute(builder)
        } else {
            operation(IrOp::HighU, self.first, self.second).compute(builder)
        }
    }
}

/// The upper half of the double product of two values, of which `low` is what 64 bits hold.
#[derive(Clone, Copy)]
struct HighHalf {
    sign: bool,
    width: Width,
    first: Temp,
    second: Temp,
    low: Temp,
}

impl Compute for HighHalf {
    ghost use Rattle.lift_alu.specs.Formulas.{Kept};
    ghost use Rattle.lift_alu.specs.Products.{high_formula};

    ghost formula = { λ h. high_formula h.sign h.width (Kept h.first.0) (Kept h.second.0) (Kept h.low.0) };

    fn compute(self, builder: &mut Builder) -> Result<Temp, NoMemory> {
        let above = Cut {
            sign: self.sign,
            width: self.width,
            value: operation_by(IrOp::Shr, self.low, bits(self.width)),
        };
        let whole = UpperWord {
            sign: self.sign,
            first: self.first,
            second: self.second,
        };
        match self.width {
            Width::Quad => whole.compute(builder),
            Width::Byte | Width::Word | Width::Long => above.compute(builder),
        }
    }
}

/// 64 zeros, or copies of a value's sign.
#[derive(Clone, Copy)]
struct Filling {
    sign: bool,
    value: Temp,
}

impl Compute for Filling {
    ghost use Rattle.lift_alu.specs.Formulas.{Kept};
    ghost use Rattle.lift_alu.specs.Products.{filling};

    ghost formula = { λ f. filling f.sign (Kept f.value.0) };

    fn compute(self, builder: &mut Builder) -> Result<Temp, NoMemory> {
        if self.sign {
            operation_by(IrOp::Sar, self.value, 63).compute(builder)
        } else {
            Constant(0).compute(builder)
        }
    }
}

/// Whether a double product is more than its low half.
#[derive(Clone, Copy)]
struct IsOver<H> {
    sign: bool,
    width: Width,
    high: H,
    low: Temp,
}

impl<H: Compute> Compute for IsOver<H> {
    ghost use Rattle.lift_alu.specs.Formulas.{Kept};
    ghost use Rattle.lift_alu.specs.Products.{over_formula};

    ghost formula = { λ o. over_formula o.sign o.width (H.formula o.high) (Kept o.low.0) };

    fn compute(self, builder: &mut Builder) -> Result<Temp, NoMemory> {
        let filled = Differs {
            first: self.high,
            second: Filling {
                sign: self.sign,
                value: self.low,
            },
        };
        let extended = Differs {
            first: self.low,
            second: Extension {
                sign: self.sign,
                width: self.width,
                value: self.low,
            },
        };
        match self.width {
            Width::Quad => filled.compute(builder),
            Width::Byte | Width::Word | Width::Long => extended.compute(builder),
        }
    }
}

impl Builder {
    /// CF and OF get one value, and ZF and SF another.
    pub fn set_pairs(&mut self, over: Temp, other: Temp) -> Result<(), NoMemory>
        ensures { OnOk result ((rest : Lifting) → so_far self.old (sets_pairs (Kept over.0) (Kept other.0) rest) ≡ so_far self.new rest) }
    {
        self.set_flag(OVERFLOW, over)?;
        self.set_flag(ZERO, other)?;
        self.set_flag(SIGN, other)?;
        self.set_flag(CARRY, over)?;
        Ok(())
    }

    /// The flags of a product, from whether it is more than its low half.
    pub fn set_over<O: Compute>(&mut self, over: O) -> Result<(), NoMemory>
        ensures { OnOk result ((rest : Lifting) → so_far self.old (sets_over (O.formula over) rest) ≡ so_far self.new rest) }
    {
        let over = self.keep(over)?;
        let zero = self.keep(Constant(0))?;
        self.set_pairs(over, zero)?;
        Ok(())
    }

    /// The product of two bytes gets into AX.
    fn put_word(&mut self, sign: bool, product: Temp) -> Result<(), NoMemory>
        ensures { OnOk result (so_far self.old (puts_word sign (Kept product.0)) ≡ so_far self.new done) }
    {
        self.set_over(IsOver {
            sign,
            width: Width::Byte,
            high: product,
            low: product,
        })?;
        let value = Cut {
            sign,
            width: Width::Word,
            value: product,
        };
        self.put(Width::Word, RAX, value)?;
        Ok(())
    }

    /// The product of two values gets into the accumulator and its upper half.
    fn put_halves(
        &mut self,
        sign: bool,
        width: Width,
        a: Temp,
        b: Temp,
        product: Temp,
    ) -> Result<(), NoMemory>
        ensures { OnOk result (so_far self.old (puts_halves sign width (Kept a.0) (Kept b.0) (Kept product.0)) ≡ so_far self.new done) }
    {
        let high = self.keep(HighHalf {
            sign,
            width,
            first: a,
            second: b,
            low: product,
        })?;
        self.set_over(IsOver {
            sign,
            width,
            high,
            low: product,
        })?;
        let low = Clean {
            width,
            value: product,
        };
        self.put(width, RAX, low)?;
        self.put(width, RDX, high)?;
        Ok(())
    }

    /// Where a double product gets.
    #[tactic(auto, unfolding(crate::specs::Lifted::puts_product))]
    fn put_product(
        &mut self,
        sign: bool,
        width: Width,
        a: Temp,
        b: Temp,
        product: Temp,
    ) -> Result<(), NoMemory>
        ensures { OnOk result (so_far self.old (puts_product sign width (Kept a.0) (Kept b.0) (Kept product.0)) ≡ so_far self.new done) }
    {
        match width {
            Width::Byte => self.put_word(sign, product),
            Width::Word | Width::Long | Width::Quad => self.put_halves(sign, width, a, b, product),
        }
    }

    /// Keeps what a register holds at a width.
    #[tactic(auto, unfolding(crate::specs::Operands::register_formula))]
    fn keep_part(&mut self, width: Width, register: Reg) -> Result<Temp, NoMemory>
        ensures { IfOk result (λ t. (rest : Formula → Lifting) → so_far self.old (keeps (register_formula width register) rest) ≡ so_far self.new (rest (Kept t.0))) }
    {
        self.keep(part_of(width, register))
    }

    /// MUL, or IMUL with one operand where `sign` holds.
    pub fn multiply(
        &mut self,
        site: Site,
        sign: bool,
        width: Width,
        from: &Operand,
    ) -> Result<(), NoMemory>
        ensures { OnOk result (so_far self.old (multiplies site.at site.after sign width from.now) ≡ so_far self.new done) }
    {
        let b = self.fetch(site, width, from)?;
        let a = self.keep_part(width, RAX)?;
        let product = self.keep(Product {
            sign,
            width,
            first: a,
            second: b,
        })?;
        self.put_product(sign, width, a, b, product)?;
        Ok(())
    }

    /// IMUL with two or three operands.
    pub fn multiply_into(
        &mut self,
        site: Site,
        width: Width,
        to: &Operand,
        first: &Operand,
        second: &Operand,
    ) -> Result<(), NoMemory>
        ensures { OnOk result (so_far self.old (multiplies_into site.at site.after width to.now first.now second.now) ≡ so_far self.new done) }
    {
        let a = self.fetch(site, width, first)?;
        let b = self.fetch(site, width, second)?;
        let product = self.keep(Product {
            sign: true,
            width,
            first: a,
            second: b,
        })?;
        let high = HighHalf {
            sign: true,
            width,
            first: a,
            second: b,
            low: product,
        };
        self.set_over(IsOver {
            sign: true,
            width,
            high,
            low: product,
        })?;
        self.put_operand(
            width,
            to,
            Clean {
                width,
                value: product,
            },
        )?;
        Ok(())
    }
}
