ghost use Rattle.std.specs.Prelude.{◌≡◌};
ghost use Rattle.a64_code.specs.Ranges.{bits, IsEncodable};

use crate::draw::Draw;
use a64_code::{A64, XReg};

/// How many variants there are.
pub const VARIANTS: u32 = 43;

/// An instruction of the variant with this number, with operands in range; of the last where there is none.
pub fn sample(draw: &mut Draw, number: u32) -> A64<XReg>
    ensures { IsEncodable result }
{
    match number {
        0..=5 => shifted(draw, number),
        6..=10 => immediate(draw, number - 6),
        11..=16 => two_sources(draw, number - 11),
        17..=20 => three_sources(draw, number - 17),
        21..=24 => moved_or_chosen(draw, number - 21),
        25..=28 => branch(draw, number - 25),
        29..=36 => access(draw, number - 29),
        _ => other(draw, number),
    }
}

fn shifted(draw: &mut Draw, number: u32) -> A64<XReg>
    ensures { IsEncodable result }
{
    let (x, d) = (draw.form(), draw.register());
    let (n, m) = (draw.operand(), draw.operand());
    let (kind, amount) = (draw.byte(3), draw.byte(width(x)));
    match number {
        0 => A64::Add(x, d, n, m, kind, amount),
        1 => A64::Sub(x, d, n, m, kind, amount),
        2 => A64::Subs(x, draw.operand(), n, m, kind, amount),
        3 => A64::And(x, d, n, m, kind, amount),
        4 => A64::Orr(x, d, n, m, kind, amount),
        _ => A64::Eor(x, d, n, m, kind, amount),
    }
}

fn immediate(draw: &mut Draw, number: u32) -> A64<XReg>
    ensures { IsEncodable result }
{
    let (x, d, n) = (draw.form(), draw.register(), draw.register());
    let (value, quarter) = (draw.below(0x1_0000) as u16, draw.byte(width(x) / 16));
    match number {
        0 => A64::AddImm(x, d, n, value % 0x1000),
        1 => A64::SubImm(x, d, n, value % 0x1000),
        2 => A64::Movz(x, d, value, quarter),
        3 => A64::Movk(x, d, value, quarter),
        _ => A64::Movn(x, d, value, quarter),
    }
}

fn two_sources(draw: &mut Draw, number: u32) -> A64<XReg>
    ensures { IsEncodable result }
{
    let (x, d) = (draw.form(), draw.register());
    let (n, m) = (draw.operand(), draw.operand());
    match number {
        0 => A64::Lslv(x, d, n, m),
        1 => A64::Lsrv(x, d, n, m),
        2 => A64::Asrv(x, d, n, m),
        3 => A64::Rorv(x, d, n, m),
        4 => A64::Udiv(x, d, n, m),
        _ => A64::Sdiv(x, d, n, m),
    }
}

fn three_sources(draw: &mut Draw, number: u32) -> A64<XReg>
    ensures { IsEncodable result }
{
    let (x, d, a) = (draw.form(), draw.register(), draw.register());
    let (n, m) = (draw.operand(), draw.operand());
    match number {
        0 => A64::Madd(x, d, n, m, a),
        1 => A64::Msub(x, d, n, m, a),
        2 => A64::Smulh(d, n, m),
        _ => A64::Umulh(d, n, m),
    }
}

fn moved_or_chosen(draw: &mut Draw, number: u32) -> A64<XReg>
    ensures { IsEncodable result }
{
    let (x, d, n) = (draw.form(), draw.register(), draw.register());
    let (immr, imms) = (draw.byte(width(x)), draw.byte(width(x)));
    let (m, condition) = (draw.operand(), draw.byte(14));
    match number {
        0 => A64::Ubfm(x, d, n, immr, imms),
        1 => A64::Sbfm(x, d, n, immr, imms),
        2 => A64::Csel(x, d, draw.operand(), m, condition),
        _ => A64::Csinc(x, d, draw.operand(), m, condition),
    }
}

fn branch(draw: &mut Draw, number: u32) -> A64<XReg>
    ensures { IsEncodable result }
{
    let (x, t) = (draw.form(), draw.register());
    match number {
        0 => A64::B(draw.far()),
        1 => A64::BCond(draw.byte(14), draw.near()),
        2 => A64::Cbz(x, t, draw.near()),
        _ => A64::Cbnz(x, t, draw.near()),
    }
}

fn access(draw: &mut Draw, number: u32) -> A64<XReg>
    ensures { IsEncodable result }
{
    let (size, s) = (draw.size(), draw.register());
    let (t, n) = (draw.register(), draw.register());
    match number {
        0 => A64::Ldr(size, t, n, draw.below(0x1000) as u16),
        1 => A64::Str(size, draw.operand(), n, draw.below(0x1000) as u16),
        2 => A64::Cas(size, s, t, n),
        3 => A64::Swp(size, s, t, n),
        4 => A64::Ldadd(size, s, t, n),
        5 => A64::Ldclr(size, s, t, n),
        6 => A64::Ldeor(size, s, t, n),
        _ => A64::Ldset(size, s, t, n),
    }
}

fn other(draw: &mut Draw, number: u32) -> A64<XReg>
    ensures { IsEncodable result }
{
    match number {
        37 => A64::DmbFull,
        38 => A64::DmbLd,
        39 => A64::DmbSt,
        40 => A64::Nop,
        41 => A64::Brk(1 + draw.below(4) as u16),
        _ => A64::Svc(1 + draw.below(3) as u16),
    }
}

/// How many bits a form works on.
fn width(x: bool) -> u8
    ensures { result ≡ bits x }
{
    if x { 64 } else { 32 }
}
