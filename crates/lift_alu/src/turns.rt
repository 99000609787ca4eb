ghost use Rattle.std.specs.Prelude.{◌≡◌, ◌++◌, OnOk};
ghost use Rattle.lift_alu.specs.Formulas.{Formula, Lifting, Kept, done};
ghost use Rattle.lift_alu.specs.Lifted.{changes};
ghost use Rattle.lift_alu.specs.Turns.{turn_formula, turn_flags};
ghost use Rattle.lift_alu.specs.SoFar.{so_far};

use crate::access::Site;
use crate::builder::Builder;
use crate::flags::{CARRY, OVERFLOW, Top};
use crate::formula::{Compute, Constant, operation, operation_by};
use crate::operands::{Clean, bits};
use crate::shifts::{AtOne, Count, lowest_bit};
use alu_width::Rotate;
use ev_graph::NoMemory;
use limm_ir::{IrOp, Temp};
use x64_syntax::{Operand, Width};

/// A count that a temporary holds modulo a width; at 32 and 64 bits it is below the width.
#[derive(Clone, Copy)]
struct KeptTurn {
    width: Width,
    count: Temp,
}

impl Compute for KeptTurn {
    ghost use Rattle.lift_alu.specs.Turns.{kept_turn};

    ghost formula = { λ x. kept_turn x.width x.count };

    fn compute(self, builder: &mut Builder) -> Result<Temp, NoMemory> {
        match self.width {
            Width::Byte => operation_by(IrOp::And, self.count, 7).compute(builder),
            Width::Word => operation_by(IrOp::And, self.count, 15).compute(builder),
            Width::Long | Width::Quad => self.count.compute(builder),
        }
    }
}

/// A count modulo a width: so many places are turned.
#[derive(Clone, Copy)]
struct Turn {
    width: Width,
    count: Count,
}

impl Compute for Turn {
    ghost use Rattle.lift_alu.specs.Turns.{turn};

    ghost formula = { λ x. turn x.width x.count };

    fn compute(self, builder: &mut Builder) -> Result<Temp, NoMemory> {
        let width = self.width;
        match self.count {
            Count::Fixed(number) => Constant(number % bits(width)).compute(builder),
            Count::InTemp(count) => KeptTurn { width, count }.compute(builder),
        }
    }
}

/// The bits of a width without the places that are turned.
#[derive(Clone, Copy)]
struct RestOfTurn {
    width: Width,
    count: Count,
}

impl Compute for RestOfTurn {
    ghost use Rattle.lift_alu.specs.Turns.{rest_of_turn};

    ghost formula = { λ x. rest_of_turn x.width x.count };

    fn compute(self, builder: &mut Builder) -> Result<Temp, NoMemory> {
        let width = self.width;
        let whole = bits(width);
        match self.count {
            Count::Fixed(number) => Constant(whole - number % whole).compute(builder),
            Count::InTemp(count) => {
                let turn = KeptTurn { width, count };
                operation(IrOp::Sub, Constant(whole), turn).compute(builder)
            }
        }
    }
}

/// A rotate at a width by a count.
#[derive(Clone, Copy)]
pub(crate) struct Turning {
    op: Rotate,
    width: Width,
    count: Count,
}

impl Turning {
    /// A rotate at a width by a count.
    pub fn new(op: Rotate, width: Width, count: Count) -> Turning
        ensures { result ≡ record { op = op; width = width; count = count } }
    {
        Turning { op, width, count }
    }
}

/// A value of 64 bits, turned.
#[derive(Clone, Copy)]
struct WholeTurned {
    op: Rotate,
    count: Count,
    value: Temp,
}

impl Compute for WholeTurned {
    ghost use Rattle.lift_alu.specs.Formulas.{Kept};
    ghost use Rattle.lift_alu.specs.Turns.{whole_turned};

    ghost formula = { λ x. whole_turned x.op x.count (Kept x.value.0) };

    fn compute(self, builder: &mut Builder) -> Result<Temp, NoMemory> {
        let width = Width::Quad;
        let count = self.count;
        match self.op {
            Rotate::Rol => {
                operation(IrOp::Ror, self.value, RestOfTurn { width, count }).compute(builder)
            }
            Rotate::Ror => operation(IrOp::Ror, self.value, Turn { width, count }).compute(builder),
        }
    }
}

/// The bits that leave a value of a width at one end, beside those that come in at the other.
#[derive(Clone, Copy)]
struct PartsTurned {
    by: Turning,
    value: Temp,
}

impl Compute for PartsTurned {
    ghost use Rattle.lift_alu.specs.Formulas.{Kept};
    ghost use Rattle.lift_alu.specs.Turns.{parts_turned};

    ghost formula = { λ x. parts_turned x.by.op x.by.width x.by.count (Kept x.value.0) };

    fn compute(self, builder: &mut Builder) -> Result<Temp, NoMemory> {
        let Turning { op, width, count } = self.by;
        let (leaving, staying) = match op {
            Rotate::Rol => (IrOp::Shr, IrOp::Shl),
            Rotate::Ror => (IrOp::Shl, IrOp::Shr),
        };
        let leaves = operation(leaving, self.value, RestOfTurn { width, count });
        let stays = operation(staying, self.value, Turn { width, count });
        operation(IrOp::Or, leaves, stays).compute(builder)
    }
}

/// A value of a width, turned.
#[derive(Clone, Copy)]
struct Turned {
    by: Turning,
    value: Temp,
}

impl Compute for Turned {
    ghost use Rattle.lift_alu.specs.Formulas.{Kept};
    ghost use Rattle.lift_alu.specs.Turns.{turn_formula};

    ghost formula = { λ x. turn_formula x.by.op x.by.width x.by.count (Kept x.value.0) };

    fn compute(self, builder: &mut Builder) -> Result<Temp, NoMemory> {
        let Turned { by, value } = self;
        let Turning { op, width, count } = by;
        match width {
            Width::Quad => WholeTurned { op, count, value }.compute(builder),
            Width::Byte | Width::Word | Width::Long => {
                let value = PartsTurned { by, value };
                Clean { width, value }.compute(builder)
            }
        }
    }
}

/// CF of a value that was turned.
#[derive(Clone, Copy)]
struct TurnCarry {
    by: Turning,
    value: Temp,
}

impl Compute for TurnCarry {
    ghost use Rattle.lift_alu.specs.Formulas.{Kept};
    ghost use Rattle.lift_alu.specs.Turns.{turn_carry};

    ghost formula = { λ x. turn_carry x.by.op x.by.width (Kept x.value.0) };

    fn compute(self, builder: &mut Builder) -> Result<Temp, NoMemory> {
        let value = self.value;
        let width = self.by.width;
        match self.by.op {
            Rotate::Rol => lowest_bit(value).compute(builder),
            Rotate::Ror => Top { width, value }.compute(builder),
        }
    }
}

/// OF of a value that was turned by 1.
#[derive(Clone, Copy)]
struct TurnOverflow {
    by: Turning,
    value: Temp,
}

impl Compute for TurnOverflow {
    ghost use Rattle.lift_alu.specs.Formulas.{Kept};
    ghost use Rattle.lift_alu.specs.Turns.{turn_overflow};

    ghost formula = { λ x. turn_overflow x.by.op x.by.width (Kept x.value.0) };

    fn compute(self, builder: &mut Builder) -> Result<Temp, NoMemory> {
        let value = self.value;
        let width = self.by.width;
        let top = Top { width, value };
        match self.by.op {
            Rotate::Rol => operation(IrOp::Xor, lowest_bit(value), top).compute(builder),
            Rotate::Ror => {
                let below = operation_by(IrOp::Shr, value, bits(width) - 2);
                operation(IrOp::Xor, lowest_bit(below), top).compute(builder)
            }
        }
    }
}

impl Builder {
    /// OF and CF of a value that was turned.
    fn set_turn_flags(&mut self, by: Turning, value: Temp) -> Result<(), NoMemory>
        ensures { OnOk result ((old : Formula) (rest : Lifting) → so_far self.old (turn_flags by.op by.width by.count old (Kept value.0) rest) ≡ so_far self.new rest) }
    {
        let overflow = AtOne {
            count: by.count,
            flag: TurnOverflow { by, value },
        };
        self.settle_flag(by.count, OVERFLOW, overflow)?;
        self.settle_flag(by.count, CARRY, TurnCarry { by, value })?;
        Ok(())
    }

    /// ROL and ROR by a count.
    pub fn turn_value(&mut self, site: Site, by: Turning, to: &Operand) -> Result<(), NoMemory>
        ensures { OnOk result (so_far self.old (changes site.at site.after by.width to.now (turn_formula by.op by.width by.count) (turn_flags by.op by.width by.count)) ≡ so_far self.new done) }
    {
        let change = self.begin_change(site, by.width, to)?;
        let value = change.value;
        let new = self.keep(Turned { by, value })?;
        self.write_there(site, by.width, change.there, new)?;
        self.set_turn_flags(by, new)?;
        self.put_there(by.width, change.there, new)?;
        Ok(())
    }
}
