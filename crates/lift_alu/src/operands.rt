ghost use Rattle.std.specs.Prelude.{◌≡◌, pos, ◌+ℤ◌};
ghost use Rattle.word_arith.specs.Signed.{low_bits};
ghost use Rattle.x64_syntax.specs.Operands.{bits as bits_of};
ghost use Rattle.x64_table.specs.State.{bytes as bytes_of};
ghost use Rattle.lift_alu.specs.Operands.{displacement as displacement_of};

use crate::builder::Builder;
use crate::formula::{Compute, Constant, Operate, RegisterNow, operation, operation_by};
use ev_graph::NoMemory;
use limm_ir::{IrOp, Temp};
use x64_syntax::{Mem, Reg, Width};

/// The bytes of a width.
pub(crate) fn bytes(width: Width) -> u8
    ensures { result ≡ bytes_of width }
{
    match width {
        Width::Byte => 1,
        Width::Word => 2,
        Width::Long => 4,
        Width::Quad => 8,
    }
}

/// The bits of a width.
pub(crate) fn bits(width: Width) -> u64
    ensures { result ≡ bits_of width }
{
    match width {
        Width::Byte => 8,
        Width::Word => 16,
        Width::Long => 32,
        Width::Quad => 64,
    }
}

/// The low bits of a value, as many as a width has.
#[derive(Clone, Copy)]
pub(crate) struct Clean<E> {
    pub width: Width,
    pub value: E,
}

impl<E: Compute> Compute for Clean<E> {
    ghost use Rattle.lift_alu.specs.Operands.{clean};

    ghost formula = { λ c. clean c.width (E.formula c.value) };

    #[tactic(auto, unfolding(crate::specs::Operands::clean))]
    fn compute(self, builder: &mut Builder) -> Result<Temp, NoMemory> {
        match self.width {
            Width::Byte => operation_by(IrOp::ZeroExt, self.value, 1).compute(builder),
            Width::Word => operation_by(IrOp::ZeroExt, self.value, 2).compute(builder),
            Width::Long => operation_by(IrOp::ZeroExt, self.value, 4).compute(builder),
            Width::Quad => self.value.compute(builder),
        }
    }
}

/// A value of a width with its sign, as 64 bits.
#[derive(Clone, Copy)]
pub(crate) struct WithSign<E> {
    pub width: Width,
    pub value: E,
}

impl<E: Compute> Compute for WithSign<E> {
    ghost use Rattle.lift_alu.specs.Operands.{with_sign};

    ghost formula = { λ c. with_sign c.width (E.formula c.value) };

    #[tactic(auto, unfolding(crate::specs::Operands::with_sign))]
    fn compute(self, builder: &mut Builder) -> Result<Temp, NoMemory> {
        match self.width {
            Width::Byte => operation_by(IrOp::SignExt, self.value, 1).compute(builder),
            Width::Word => operation_by(IrOp::SignExt, self.value, 2).compute(builder),
            Width::Long => operation_by(IrOp::SignExt, self.value, 4).compute(builder),
            Width::Quad => self.value.compute(builder),
        }
    }
}

/// A register from its second byte on for AH, CH, DH and BH, and else the whole register.
#[derive(Clone, Copy)]
pub(crate) struct FromPart(pub Reg);

impl Compute for FromPart {
    ghost use Rattle.lift_alu.specs.Formulas.{Register};
    ghost use Rattle.lift_alu.specs.Operands.{shifted_down};

    ghost formula = { λ r. shifted_down r.0.high (Register r.0.number) };

    fn compute(self, builder: &mut Builder) -> Result<Temp, NoMemory> {
        let whole = RegisterNow(self.0.number);
        if self.0.high {
            operation_by(IrOp::Shr, whole, 8).compute(builder)
        } else {
            whole.compute(builder)
        }
    }
}

/// A register of which a part gets a value of a width.
#[derive(Clone, Copy)]
pub(crate) struct Merged<E> {
    pub width: Width,
    pub register: Reg,
    pub value: E,
}

impl<E: Compute> Compute for Merged<E> {
    ghost use Rattle.lift_alu.specs.Formulas.{Register};
    ghost use Rattle.lift_alu.specs.Operands.{merged_formula};

    ghost formula = { λ m. merged_formula m.width m.register.high (Register m.register.number) (E.formula m.value) };

    #[tactic(auto, unfolding(crate::specs::Operands::merged_formula))]
    fn compute(self, builder: &mut Builder) -> Result<Temp, NoMemory> {
        let old = RegisterNow(self.register.number);
        match self.width {
            Width::Byte if self.register.high => {
                let moved = operation_by(IrOp::Shl, self.value, 8);
                beside(old, 0xFFFF_FFFF_FFFF_00FF, moved).compute(builder)
            }
            Width::Byte => beside(old, 0xFFFF_FFFF_FFFF_FF00, self.value).compute(builder),
            Width::Word => beside(old, 0xFFFF_FFFF_FFFF_0000, self.value).compute(builder),
            Width::Long | Width::Quad => self.value.compute(builder),
        }
    }
}

/// A value beside the bits of a register that a mask has.
fn beside<E>(old: RegisterNow, mask: u64, value: E) -> Operate<Operate<RegisterNow, Constant>, E>
    ensures { result ≡ record { op = IrOp.Or; first = record { op = IrOp.And; first = old; second = record { 0 = mask } }; second = value } }
{
    operation(IrOp::Or, operation_by(IrOp::And, old, mask), value)
}

/// An index times its scale.
#[derive(Clone, Copy)]
pub(crate) struct Scaled {
    pub index: u8,
    pub scale: u8,
}

impl Compute for Scaled {
    ghost use Rattle.lift_alu.specs.Operands.{scaled};

    ghost formula = { λ x. scaled x.index x.scale };

    #[tactic(auto, unfolding(crate::specs::Operands::scaled))]
    fn compute(self, builder: &mut Builder) -> Result<Temp, NoMemory> {
        let index = RegisterNow(self.index);
        match self.scale {
            1 => index.compute(builder),
            2 => operation_by(IrOp::Shl, index, 1).compute(builder),
            4 => operation_by(IrOp::Shl, index, 2).compute(builder),
            _ => operation_by(IrOp::Shl, index, 3).compute(builder),
        }
    }
}

/// A value and what is added to it, where that is not 0.
#[derive(Clone, Copy)]
struct Displaced<E> {
    value: E,
    by: u64,
}

impl<E: Compute> Compute for Displaced<E> {
    ghost use Rattle.std.specs.Prelude.{Some};
    ghost use Rattle.lift_alu.specs.Operands.{with_displacement};

    ghost formula = { λ x. with_displacement x.by (Some (E.formula x.value)) };

    fn compute(self, builder: &mut Builder) -> Result<Temp, NoMemory> {
        if self.by == 0 {
            self.value.compute(builder)
        } else {
            operation_by(IrOp::Add, self.value, self.by).compute(builder)
        }
    }
}

/// The sum of a base, an index times its scale, and a displacement.
#[derive(Clone, Copy)]
pub(crate) struct Address {
    pub base: Option<u8>,
    pub index: Option<u8>,
    pub scale: u8,
    pub displacement: u64,
}

impl Compute for Address {
    ghost use Rattle.lift_alu.specs.Operands.{with_displacement, with_index, base_part};

    ghost formula = { λ x. with_displacement x.displacement (with_index x.index x.scale (base_part x.base)) };

    fn compute(self, builder: &mut Builder) -> Result<Temp, NoMemory> {
        let scale = self.scale;
        let by = self.displacement;
        match (self.base, self.index) {
            (None, None) => Constant(by).compute(builder),
            (Some(base), None) => {
                let value = RegisterNow(base);
                Displaced { value, by }.compute(builder)
            }
            (None, Some(index)) => {
                let value = Scaled { index, scale };
                Displaced { value, by }.compute(builder)
            }
            (Some(base), Some(index)) => {
                let value = operation(IrOp::Add, RegisterNow(base), Scaled { index, scale });
                Displaced { value, by }.compute(builder)
            }
        }
    }
}

/// The address of memory, in an instruction behind which the address `after` stands.
pub(crate) fn address_of(memory: &Mem, after: u64) -> Address
    ensures { result ≡ record { base = memory.now.base; index = memory.now.index; scale = memory.now.scale; displacement = displacement_of memory.now after } }
{
    Address {
        base: memory.base,
        index: memory.index,
        scale: memory.scale,
        displacement: displacement(memory, after),
    }
}

/// What is added to base and index: the offset, from the address after the instruction where it is
/// relative.
#[tactic(auto, unfolding(crate::specs::Operands::displacement))]
fn displacement(memory: &Mem, after: u64) -> u64
    ensures { result ≡ displacement_of memory.now after }
{
    let from = if memory.rip { after } else { 0 };
    offset_from(from, memory.offset)
}

/// A sum with a signed offset, modulo 2^64.
fn offset_from(from: u64, offset: i64) -> u64
    ensures { result ≡ low_bits 64 (pos from +ℤ offset) }
{
    from.wrapping_add_signed(offset)
}
