ghost use Rattle.std.specs.Prelude.{◌≡◌, ◌+◌, ◌*◌, ◌<◌, ◌^◌, ◌++◌, OnOk};
ghost use Rattle.limm_ir.specs.Costs.{quarter_of, quarters_not};
ghost use Rattle.isel.specs.Groups.{number_of, quarter_word, upper_words, number_words, compare_words, copy_word, op_words, rmw_word, barrier_word, group_of};
ghost use Rattle.isel.specs.Ranges.{IsSmall, HasSmall, Fits};
ghost use Rattle.isel.specs.LastBits.{kept_bit};

use crate::last_bits::LastBits;
use a64_block::break_of;
use a64_code::A64;
use ev_graph::NoMemory;
use limm_ir::{IrFence, IrOp, IrStep, RmwOp, Temp};

/// The number that reads as zero.
const ZERO: u32 = 20;

/// The number of x86's first flag.
const FLAGS: u32 = 16;

/// The code of the condition "not equal".
const NOT_EQUAL: u8 = 1;

/// The code of the condition "at least", without sign.
const AT_LEAST: u8 = 2;

/// The code of the condition "at least", with sign.
const SIGNED_AT_LEAST: u8 = 10;

/// The number of a temporary.
pub(crate) fn number_of(t: Temp) -> u32
    requires { IsSmall t.0 }
    ensures { result ≡ number_of t }
{
    21 + t.0
}

/// Appends the words of one step.
pub(crate) fn push_group(
    words: &mut Vec<A64<u32>>,
    step: IrStep,
    last_bits: &LastBits,
) -> Result<(), NoMemory>
    requires { HasSmall step }
    ensures words { OnOk result (words.new.items ≡ words.old.items ++ group_of (kept_bit last_bits.now.bits) step) }
    ensures fit { OnOk result (Fits step) }
{
    match step {
        IrStep::Const(t, v) => push_number(words, number_of(t), v)?,
        IrStep::GetReg(t, r) => words.push(copy(number_of(t), u32::from(r)))?,
        IrStep::SetReg(r, t) => words.push(copy(u32::from(r), number_of(t)))?,
        IrStep::GetFlag(t, f) => words.push(copy(number_of(t), FLAGS + u32::from(f)))?,
        IrStep::SetFlag(f, t) => words.push(copy(FLAGS + u32::from(f), number_of(t)))?,
        IrStep::Op(op, t, a, b) => push_op(words, op, t, a, b, last_bits.of(b))?,
        IrStep::Select(t, c, a, b) => {
            words.push(A64::Subs(true, ZERO, number_of(c), ZERO, 0, 0))?;
            words.push(A64::Csel(true, number_of(t), number_of(a), number_of(b), NOT_EQUAL))?;
        }
        IrStep::Load(t, a, size, _) => words.push(A64::Ldr(size, number_of(t), number_of(a), 0))?,
        IrStep::Store(a, v, size, _) => words.push(A64::Str(size, number_of(v), number_of(a), 0))?,
        IrStep::Rmw(op, t, a, v, size, _) => words.push(locked(op, size, v, t, a))?,
        IrStep::Cas(t, a, e, v, size, _) => {
            words.push(copy(number_of(t), number_of(e)))?;
            words.push(A64::Cas(size, number_of(t), number_of(v), number_of(a)))?;
        }
        IrStep::Fence(fence) => words.push(barrier(fence))?,
        IrStep::Input => words.push(A64::Svc(1))?,
        IrStep::Output => words.push(A64::Svc(2))?,
        IrStep::TrapIf(t, kind) => {
            words.push(A64::Cbz(true, number_of(t), 2))?;
            words.push(A64::Brk(break_of(kind)))?;
        }
    }
    Ok(())
}

/// Appends the words of an operation; an extension keeps the bits up to `last`.
fn push_op(
    words: &mut Vec<A64<u32>>,
    op: IrOp,
    t: Temp,
    a: Temp,
    b: Temp,
    last: u8,
) -> Result<(), NoMemory>
    requires { IsSmall t.0 × IsSmall a.0 × IsSmall b.0 }
    ensures { OnOk result (words.new.items ≡ words.old.items ++ op_words last op (number_of t) (number_of a) (number_of b)) }
{
    let d = number_of(t);
    let a = number_of(a);
    let b = number_of(b);
    match op {
        IrOp::Add => words.push(A64::Add(true, d, a, b, 0, 0))?,
        IrOp::Sub => words.push(A64::Sub(true, d, a, b, 0, 0))?,
        IrOp::And => words.push(A64::And(true, d, a, b, 0, 0))?,
        IrOp::Or => words.push(A64::Orr(true, d, a, b, 0, 0))?,
        IrOp::Xor => words.push(A64::Eor(true, d, a, b, 0, 0))?,
        IrOp::Shl => words.push(A64::Lslv(true, d, a, b))?,
        IrOp::Shr => words.push(A64::Lsrv(true, d, a, b))?,
        IrOp::Sar => words.push(A64::Asrv(true, d, a, b))?,
        IrOp::Ror => words.push(A64::Rorv(true, d, a, b))?,
        IrOp::Mul => {
            words.push(A64::Movz(true, d, 0, 0))?;
            words.push(A64::Madd(true, d, a, b, d))?;
        }
        IrOp::HighU => words.push(A64::Umulh(d, a, b))?,
        IrOp::HighS => words.push(A64::Smulh(d, a, b))?,
        IrOp::DivU => words.push(A64::Udiv(true, d, a, b))?,
        IrOp::DivS => words.push(A64::Sdiv(true, d, a, b))?,
        IrOp::Eq => push_compare(words, NOT_EQUAL, d, a, b)?,
        IrOp::LessU => push_compare(words, AT_LEAST, d, a, b)?,
        IrOp::LessS => push_compare(words, SIGNED_AT_LEAST, d, a, b)?,
        IrOp::ZeroExt => words.push(A64::Ubfm(true, d, a, 0, last))?,
        IrOp::SignExt => words.push(A64::Sbfm(true, d, a, 0, last))?,
    }
    Ok(())
}

/// Appends a comparison, which gives 0 where the condition holds, else 1.
fn push_compare(
    words: &mut Vec<A64<u32>>,
    condition: u8,
    d: u32,
    a: u32,
    b: u32,
) -> Result<(), NoMemory>
    ensures { OnOk result (words.new.items ≡ words.old.items ++ compare_words condition d a b) }
{
    words.push(A64::Subs(true, ZERO, a, b, 0, 0))?;
    words.push(A64::Csinc(true, d, ZERO, ZERO, condition))?;
    Ok(())
}

/// Appends the words that make a number.
fn push_number(words: &mut Vec<A64<u32>>, d: u32, v: u64) -> Result<(), NoMemory>
    ensures { OnOk result (words.new.items ≡ words.old.items ++ number_words d v) }
{
    let lowest = (v % 0x1_0000) as u16;
    if quarters_not(0, v) <= quarters_not(0xFFFF, v) {
        words.push(A64::Movz(true, d, lowest, 0))?;
        push_upper(words, 0, d, v)?;
    } else {
        words.push(A64::Movn(true, d, 0xFFFF - lowest, 0))?;
        push_upper(words, 0xFFFF, d, v)?;
    }
    Ok(())
}

/// Appends the words for the upper quarters of a number that are not these 16 bits.
fn push_upper(words: &mut Vec<A64<u32>>, bits: u16, d: u32, v: u64) -> Result<(), NoMemory>
    ensures { OnOk result (words.new.items ≡ words.old.items ++ upper_words bits d v) }
{
    push_quarter(words, bits, d, v, 1)?;
    push_quarter(words, bits, d, v, 2)?;
    push_quarter(words, bits, d, v, 3)?;
    Ok(())
}

/// Appends the word for a quarter, where its 16 bits are not these.
fn push_quarter(
    words: &mut Vec<A64<u32>>,
    bits: u16,
    d: u32,
    v: u64,
    quarter: u8,
) -> Result<(), NoMemory>
    requires { quarter < 4 }
    ensures { OnOk result (words.new.items ≡ words.old.items ++ quarter_word bits d v quarter) }
{
    let own = quarter_of(v, quarter);
    if own != bits {
        words.push(A64::Movk(true, d, own, quarter))?;
    }
    Ok(())
}

/// The 16 bits of a quarter, 0 to 3.
fn quarter_of(v: u64, quarter: u8) -> u16
    requires { quarter < 4 }
    ensures { result ≡ quarter_of v quarter }
{
    ((v >> (16 * u32::from(quarter))) % 0x1_0000) as u16
}

/// How many of the three upper quarters of a number are not these 16 bits.
fn quarters_not(bits: u16, v: u64) -> u32
    ensures { result ≡ quarters_not bits v }
{
    let one = u32::from(quarter_of(v, 1) != bits);
    let two = u32::from(quarter_of(v, 2) != bits);
    let three = u32::from(quarter_of(v, 3) != bits);
    one + (two + three)
}

/// A copy, through the number that reads as zero.
fn copy(d: u32, n: u32) -> A64<u32>
    ensures { result ≡ copy_word d n }
{
    A64::Orr(true, d, ZERO, n, 0, 0)
}

/// The word of a locked step.
fn locked(op: RmwOp, size: u8, v: Temp, t: Temp, a: Temp) -> A64<u32>
    requires { IsSmall v.0 × IsSmall t.0 × IsSmall a.0 }
    ensures { result ≡ rmw_word op size (number_of v) (number_of t) (number_of a) }
{
    let v = number_of(v);
    let t = number_of(t);
    let a = number_of(a);
    match op {
        RmwOp::Swap => A64::Swp(size, v, t, a),
        RmwOp::Add => A64::Ldadd(size, v, t, a),
        RmwOp::Clear => A64::Ldclr(size, v, t, a),
        RmwOp::Flip => A64::Ldeor(size, v, t, a),
        RmwOp::Set => A64::Ldset(size, v, t, a),
    }
}

/// The barrier of a fence.
fn barrier(fence: IrFence) -> A64<u32>
    ensures { result ≡ barrier_word fence }
{
    match fence {
        IrFence::Frm => A64::DmbLd,
        IrFence::Fww => A64::DmbSt,
        IrFence::Fsc => A64::DmbFull,
    }
}
