ghost use Rattle.std.specs.Prelude.{◌≡◌, ◌++◌, OnOk};
ghost use Rattle.alu_width.specs.Masked.{masked as masked_count};
ghost use Rattle.x64_syntax.specs.Operands.{bits as bits_of};
ghost use Rattle.x64_syntax.specs.declared.operand.Operand.TheVariants as operands;
ghost use Rattle.lift_alu.specs.Formulas.{Lifting, Kept, done, sets_flag};
ghost use Rattle.lift_alu.specs.Lifted.{changes, rewrites, shifts, shifts_by, shifts_number};
ghost use Rattle.lift_alu.specs.Shifts.{unless_zero, shift_formula, shift_flags};
ghost use Rattle.lift_alu.specs.SoFar.{so_far};

use crate::access::Site;
use crate::builder::Builder;
use crate::flags::{CARRY, OVERFLOW, SIGN, Top, ZERO};
use crate::formula::{
    Choose, Compute, Constant, FlagNow, Operate, RegisterNow, operation, operation_by,
};
use crate::operands::{Clean, WithSign, bits};
use crate::turns::Turning;
use alu_width::{Rotate, Shift};
use ev_graph::NoMemory;
use limm_ir::{IrOp, Temp};
use x64_syntax::{Operand, Reg, ShiftOp, Width};

/// The masked count of a shift or a rotate: a number that is not 0, or what a temporary holds.
#[derive(Clone, Copy)]
pub(crate) enum Count {
    Fixed(u64),
    InTemp(Temp),
}

impl Compute for Count {
    ghost use Rattle.lift_alu.specs.Shifts.{amount};

    ghost formula = { λ c. amount c };

    fn compute(self, builder: &mut Builder) -> Result<Temp, NoMemory> {
        match self {
            Count::Fixed(number) => Constant(number).compute(builder),
            Count::InTemp(temp) => temp.compute(builder),
        }
    }
}

/// One less than a count.
#[derive(Clone, Copy)]
struct OneLess(Count);

impl Compute for OneLess {
    ghost use Rattle.lift_alu.specs.Shifts.{one_less};

    ghost formula = { λ x. one_less x.0 };

    fn compute(self, builder: &mut Builder) -> Result<Temp, NoMemory> {
        match self.0 {
            Count::Fixed(number) => Constant(number.saturating_sub(1)).compute(builder),
            Count::InTemp(temp) => operation_by(IrOp::Sub, temp, 1).compute(builder),
        }
    }
}

/// The bits of a width without a count.
#[derive(Clone, Copy)]
struct RestOfWidth {
    width: Width,
    count: Count,
}

impl Compute for RestOfWidth {
    ghost use Rattle.lift_alu.specs.Shifts.{rest_of_width};

    ghost formula = { λ x. rest_of_width x.width x.count };

    fn compute(self, builder: &mut Builder) -> Result<Temp, NoMemory> {
        let whole = bits(self.width);
        match self.count {
            Count::Fixed(number) => Constant(whole.saturating_sub(number)).compute(builder),
            Count::InTemp(temp) => operation(IrOp::Sub, Constant(whole), temp).compute(builder),
        }
    }
}

/// A flag where a count that a temporary holds is below a width, which it always is at 32 and 64 bits;
/// else 0.
#[derive(Clone, Copy)]
struct KeptBelowWidth<E> {
    width: Width,
    count: Temp,
    flag: E,
}

impl<E: Compute> Compute for KeptBelowWidth<E> {
    ghost use Rattle.lift_alu.specs.Shifts.{kept_below_width};

    ghost formula = { λ x. kept_below_width x.width x.count (E.formula x.flag) };

    fn compute(self, builder: &mut Builder) -> Result<Temp, NoMemory> {
        match self.width {
            Width::Byte => {
                let below = operation_by(IrOp::LessU, self.count, 8);
                operation(IrOp::And, self.flag, below).compute(builder)
            }
            Width::Word => {
                let below = operation_by(IrOp::LessU, self.count, 16);
                operation(IrOp::And, self.flag, below).compute(builder)
            }
            Width::Long | Width::Quad => self.flag.compute(builder),
        }
    }
}

/// A flag where a count is below a width, and else 0.
#[derive(Clone, Copy)]
struct BelowWidth<E> {
    width: Width,
    count: Count,
    flag: E,
}

impl<E: Compute> Compute for BelowWidth<E> {
    ghost use Rattle.lift_alu.specs.Shifts.{below_width};

    ghost formula = { λ x. below_width x.width x.count (E.formula x.flag) };

    fn compute(self, builder: &mut Builder) -> Result<Temp, NoMemory> {
        let BelowWidth { width, count, flag } = self;
        match count {
            Count::Fixed(number) if number < bits(width) => flag.compute(builder),
            Count::Fixed(_) => Constant(0).compute(builder),
            Count::InTemp(count) => KeptBelowWidth { width, count, flag }.compute(builder),
        }
    }
}

/// A flag where a count is 1, and else 0.
#[derive(Clone, Copy)]
pub(crate) struct AtOne<E> {
    pub count: Count,
    pub flag: E,
}

impl<E: Compute> Compute for AtOne<E> {
    ghost use Rattle.lift_alu.specs.Shifts.{at_one};

    ghost formula = { λ x. at_one x.count (E.formula x.flag) };

    fn compute(self, builder: &mut Builder) -> Result<Temp, NoMemory> {
        match self.count {
            Count::Fixed(1) => self.flag.compute(builder),
            Count::Fixed(_) => Constant(0).compute(builder),
            Count::InTemp(temp) => {
                let one = operation_by(IrOp::Eq, temp, 1);
                operation(IrOp::And, self.flag, one).compute(builder)
            }
        }
    }
}

/// What a flag becomes: it stays where a count is 0.
#[derive(Clone, Copy)]
pub(crate) struct UnlessZero<E> {
    pub count: Count,
    pub flag: u8,
    pub value: E,
}

impl<E: Compute> Compute for UnlessZero<E> {
    ghost use Rattle.lift_alu.specs.Shifts.{unless_zero};

    ghost formula = { λ x. unless_zero x.count x.flag (E.formula x.value) };

    fn compute(self, builder: &mut Builder) -> Result<Temp, NoMemory> {
        match self.count {
            Count::Fixed(_) => self.value.compute(builder),
            Count::InTemp(condition) => {
                let choice = Choose {
                    condition,
                    first: self.value,
                    second: FlagNow(self.flag),
                };
                choice.compute(builder)
            }
        }
    }
}

/// The lowest bit of a value.
pub(crate) fn lowest_bit<E>(value: E) -> Operate<E, Constant>
    ensures { result ≡ record { op = IrOp.And; first = value; second = record { 0 = 1 } } }
{
    operation_by(IrOp::And, value, 1)
}

/// A shift at a width by a count.
#[derive(Clone, Copy)]
struct Shifting {
    op: Shift,
    width: Width,
    count: Count,
}

impl Shifting {
    fn new(op: Shift, width: Width, count: Count) -> Shifting
        ensures { result ≡ record { op = op; width = width; count = count } }
    {
        Shifting { op, width, count }
    }
}

/// A value of a width, shifted.
#[derive(Clone, Copy)]
struct Shifted {
    by: Shifting,
    value: Temp,
}

impl Compute for Shifted {
    ghost use Rattle.lift_alu.specs.Formulas.{Kept};
    ghost use Rattle.lift_alu.specs.Shifts.{shift_formula};

    ghost formula = { λ x. shift_formula x.by.op x.by.width x.by.count (Kept x.value.0) };

    fn compute(self, builder: &mut Builder) -> Result<Temp, NoMemory> {
        let value = self.value;
        let Shifting { op, width, count } = self.by;
        match op {
            Shift::Shl => {
                let value = operation(IrOp::Shl, value, count);
                Clean { width, value }.compute(builder)
            }
            Shift::Shr => operation(IrOp::Shr, value, count).compute(builder),
            Shift::Sar => {
                let value = operation(IrOp::Sar, WithSign { width, value }, count);
                Clean { width, value }.compute(builder)
            }
        }
    }
}

/// The last bit out of a value.
#[derive(Clone, Copy)]
struct ShiftCarry {
    by: Shifting,
    value: Temp,
}

impl Compute for ShiftCarry {
    ghost use Rattle.lift_alu.specs.Formulas.{Kept};
    ghost use Rattle.lift_alu.specs.Shifts.{shift_carry};

    ghost formula = { λ x. shift_carry x.by.op x.by.width x.by.count (Kept x.value.0) };

    fn compute(self, builder: &mut Builder) -> Result<Temp, NoMemory> {
        let value = self.value;
        let Shifting { op, width, count } = self.by;
        match op {
            Shift::Shl => {
                let down = RestOfWidth { width, count };
                let flag = lowest_bit(operation(IrOp::Shr, value, down));
                BelowWidth { width, count, flag }.compute(builder)
            }
            Shift::Shr => {
                let flag = lowest_bit(operation(IrOp::Shr, value, OneLess(count)));
                BelowWidth { width, count, flag }.compute(builder)
            }
            Shift::Sar => {
                let signed = WithSign { width, value };
                lowest_bit(operation(IrOp::Sar, signed, OneLess(count))).compute(builder)
            }
        }
    }
}

/// OF of a value that becomes another.
#[derive(Clone, Copy)]
struct ShiftOverflow {
    by: Shifting,
    old: Temp,
    new: Temp,
}

impl Compute for ShiftOverflow {
    ghost use Rattle.lift_alu.specs.Formulas.{Kept};
    ghost use Rattle.lift_alu.specs.Shifts.{shift_overflow};

    ghost formula = { λ x. shift_overflow x.by.op x.by.width x.by.count (Kept x.old.0) (Kept x.new.0) };

    fn compute(self, builder: &mut Builder) -> Result<Temp, NoMemory> {
        let Shifting { op, width, count } = self.by;
        match op {
            Shift::Shl => {
                let value = operation(IrOp::Xor, self.old, self.new);
                let flag = Top { width, value };
                AtOne { count, flag }.compute(builder)
            }
            Shift::Shr => {
                let value = self.old;
                let flag = Top { width, value };
                AtOne { count, flag }.compute(builder)
            }
            Shift::Sar => Constant(0).compute(builder),
        }
    }
}

/// A number that counts, masked: its 6 low bits for 64-bit operands, and else its 5 low bits.
fn masked(width: Width, number: u64) -> u64
    ensures { result ≡ masked_count (bits_of width) number }
{
    match width {
        Width::Quad => number % 64,
        Width::Byte | Width::Word | Width::Long => number % 32,
    }
}

/// The masked count in a register.
#[derive(Clone, Copy)]
struct MaskedRegister {
    width: Width,
    register: Reg,
}

impl Compute for MaskedRegister {
    ghost use Rattle.lift_alu.specs.Shifts.{masked_formula};

    ghost formula = { λ x. masked_formula x.width x.register };

    fn compute(self, builder: &mut Builder) -> Result<Temp, NoMemory> {
        let register = RegisterNow(self.register.number);
        match self.width {
            Width::Quad => operation_by(IrOp::And, register, 63).compute(builder),
            Width::Byte | Width::Word | Width::Long => {
                operation_by(IrOp::And, register, 31).compute(builder)
            }
        }
    }
}

impl Builder {
    /// All four flags of a value that is shifted.
    fn set_shift_flags(&mut self, by: Shifting, old: Temp, new: Temp) -> Result<(), NoMemory>
        ensures { OnOk result ((rest : Lifting) → so_far self.old (shift_flags by.op by.width by.count (Kept old.0) (Kept new.0) rest) ≡ so_far self.new rest) }
    {
        let zero = Operate {
            op: IrOp::Eq,
            first: new,
            second: Constant(0),
        };
        let sign = Top {
            width: by.width,
            value: new,
        };
        self.settle_flag(by.count, OVERFLOW, ShiftOverflow { by, old, new })?;
        self.settle_flag(by.count, ZERO, zero)?;
        self.settle_flag(by.count, SIGN, sign)?;
        self.settle_flag(by.count, CARRY, ShiftCarry { by, value: old })?;
        Ok(())
    }

    /// A flag gets a value, where a count is not 0.
    pub fn settle_flag<E: Compute>(
        &mut self,
        count: Count,
        flag: u8,
        value: E,
    ) -> Result<(), NoMemory>
        ensures { OnOk result ((rest : Lifting) → so_far self.old (sets_flag flag (unless_zero count flag (E.formula value)) rest) ≡ so_far self.new rest) }
    {
        self.set_flag(flag, UnlessZero { count, flag, value })
    }

    /// SHL, SHR and SAR by a count.
    fn shift_value(&mut self, site: Site, by: Shifting, to: &Operand) -> Result<(), NoMemory>
        ensures { OnOk result (so_far self.old (changes site.at site.after by.width to.now (shift_formula by.op by.width by.count) (shift_flags by.op by.width by.count)) ≡ so_far self.new done) }
    {
        let change = self.begin_change(site, by.width, to)?;
        let value = change.value;
        let new = self.keep(Shifted { by, value })?;
        self.write_there(site, by.width, change.there, new)?;
        self.set_shift_flags(by, value, new)?;
        self.put_there(by.width, change.there, new)?;
        Ok(())
    }

    /// An operand gets its own value, and the flags stay: of 32 bits, the upper half of a register
    /// is cleared.
    fn rewrite(&mut self, site: Site, width: Width, to: &Operand) -> Result<(), NoMemory>
        ensures { OnOk result (so_far self.old (rewrites site.at site.after width to.now) ≡ so_far self.new done) }
    {
        let change = self.begin_change(site, width, to)?;
        let same = self.keep(change.value)?;
        self.write_there(site, width, change.there, same)?;
        self.put_there(width, change.there, same)?;
        Ok(())
    }

    /// Shifts and rotates by a count.
    fn shift_by(
        &mut self,
        site: Site,
        op: ShiftOp,
        width: Width,
        to: &Operand,
        count: Count,
    ) -> Result<(), NoMemory>
        ensures { OnOk result (so_far self.old (shifts_by site.at site.after op width to.now count) ≡ so_far self.new done) }
    {
        match op {
            ShiftOp::Rol => self.turn_value(site, Turning::new(Rotate::Rol, width, count), to),
            ShiftOp::Ror => self.turn_value(site, Turning::new(Rotate::Ror, width, count), to),
            ShiftOp::Shl => self.shift_value(site, Shifting::new(Shift::Shl, width, count), to),
            ShiftOp::Shr => self.shift_value(site, Shifting::new(Shift::Shr, width, count), to),
            ShiftOp::Sar => self.shift_value(site, Shifting::new(Shift::Sar, width, count), to),
        }
    }

    /// By a masked number: where it is 0, the flags stay.
    fn shift_by_number(
        &mut self,
        site: Site,
        op: ShiftOp,
        width: Width,
        to: &Operand,
        number: u64,
    ) -> Result<(), NoMemory>
        ensures { OnOk result (so_far self.old (shifts_number site.at site.after op width to.now number) ≡ so_far self.new done) }
    {
        if number == 0 {
            self.rewrite(site, width, to)
        } else {
            self.shift_by(site, op, width, to, Count::Fixed(number))
        }
    }

    /// By a register, whose masked value is kept before the operand is read.
    #[tactic(auto, unfolding(crate::specs::Lifted::shifts))]
    fn shift_by_register(
        &mut self,
        site: Site,
        op: ShiftOp,
        width: Width,
        to: &Operand,
        register: Reg,
    ) -> Result<(), NoMemory>
        ensures { OnOk result (so_far self.old (shifts site.at site.after op width to.now (operands.Reg register)) ≡ so_far self.new done) }
    {
        let count = self.keep(MaskedRegister { width, register })?;
        self.shift_by(site, op, width, to, Count::InTemp(count))?;
        Ok(())
    }

    /// Shifts and rotates.
    #[tactic(auto, unfolding(crate::specs::Lifted::shifts))]
    pub fn shift(
        &mut self,
        site: Site,
        op: ShiftOp,
        width: Width,
        to: &Operand,
        by: &Operand,
    ) -> Result<(), NoMemory>
        ensures { OnOk result (so_far self.old (shifts site.at site.after op width to.now by.now) ≡ so_far self.new done) }
    {
        match by {
            Operand::Imm(number) => {
                self.shift_by_number(site, op, width, to, masked(width, *number))
            }
            Operand::Reg(register) => self.shift_by_register(site, op, width, to, *register),
            Operand::Mem(_) => Ok(()),
        }
    }
}
