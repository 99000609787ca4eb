ghost use Rattle.std.specs.Prelude.{◌≡◌, nat_eq, map, IfOk};
ghost use Rattle.indexmap.specs.IndexMap.{get};
ghost use Rattle.a64_block.specs.Renamed.{renamed, renamed_end};
ghost use Rattle.regalloc.specs.Slots.{register_of, AreBelow};

use crate::registers::register_of;
use a64_block::AEnd;
use a64_code::{A64, XReg};
use ev_graph::NoMemory;
use indexmap::IndexMap;
use std::alloc::Global;

/// The words with a register for each number.
pub fn renamed_words(
    alloc: Global,
    words: &[A64<u32>],
    slots: &IndexMap<u32, usize>,
) -> Result<Vec<A64<XReg>>, NoMemory>
    requires { AreBelow (get nat_eq slots.now) }
    ensures { IfOk result (λ new. new.items ≡ map (renamed (register_of (get nat_eq slots.now))) words.now) }
{
    let new = words
        .iter()
        .map(|word| renamed(*word, slots))
        .collect(alloc)?;
    Ok(new)
}

/// The end with a register for its number.
pub fn renamed_end(end: AEnd<u32>, slots: &IndexMap<u32, usize>) -> AEnd<XReg>
    requires { AreBelow (get nat_eq slots.now) }
    ensures { result ≡ renamed_end (register_of (get nat_eq slots.now)) end }
{
    match end {
        AEnd::Goto(address) => AEnd::Goto(address),
        AEnd::Branch(number, there, else_there) => AEnd::Branch(
            register_of(slots, number),
            there,
            else_there,
        ),
        AEnd::Return(number) => AEnd::Return(register_of(slots, number)),
        AEnd::Indexed(number, table) => AEnd::Indexed(register_of(slots, number), table),
        AEnd::Stop(kind) => AEnd::Stop(kind),
    }
}

/// The word with a register for each number.
fn renamed(word: A64<u32>, slots: &IndexMap<u32, usize>) -> A64<XReg>
    requires { AreBelow (get nat_eq slots.now) }
    ensures { result ≡ renamed (register_of (get nat_eq slots.now)) word }
{
    let reg = |number: u32| register_of(slots, number);
    match word {
        A64::Add(x, d, n, m, kind, amount) => A64::Add(x, reg(d), reg(n), reg(m), kind, amount),
        A64::Sub(x, d, n, m, kind, amount) => A64::Sub(x, reg(d), reg(n), reg(m), kind, amount),
        A64::Subs(x, d, n, m, kind, amount) => A64::Subs(x, reg(d), reg(n), reg(m), kind, amount),
        A64::And(x, d, n, m, kind, amount) => A64::And(x, reg(d), reg(n), reg(m), kind, amount),
        A64::Orr(x, d, n, m, kind, amount) => A64::Orr(x, reg(d), reg(n), reg(m), kind, amount),
        A64::Eor(x, d, n, m, kind, amount) => A64::Eor(x, reg(d), reg(n), reg(m), kind, amount),
        A64::AddImm(x, d, n, number) => A64::AddImm(x, reg(d), reg(n), number),
        A64::SubImm(x, d, n, number) => A64::SubImm(x, reg(d), reg(n), number),
        A64::Movz(x, d, v, quarter) => A64::Movz(x, reg(d), v, quarter),
        A64::Movk(x, d, v, quarter) => A64::Movk(x, reg(d), v, quarter),
        A64::Movn(x, d, v, quarter) => A64::Movn(x, reg(d), v, quarter),
        A64::Lslv(x, d, n, m) => A64::Lslv(x, reg(d), reg(n), reg(m)),
        A64::Lsrv(x, d, n, m) => A64::Lsrv(x, reg(d), reg(n), reg(m)),
        A64::Asrv(x, d, n, m) => A64::Asrv(x, reg(d), reg(n), reg(m)),
        A64::Rorv(x, d, n, m) => A64::Rorv(x, reg(d), reg(n), reg(m)),
        A64::Udiv(x, d, n, m) => A64::Udiv(x, reg(d), reg(n), reg(m)),
        A64::Sdiv(x, d, n, m) => A64::Sdiv(x, reg(d), reg(n), reg(m)),
        A64::Madd(x, d, n, m, a) => A64::Madd(x, reg(d), reg(n), reg(m), reg(a)),
        A64::Msub(x, d, n, m, a) => A64::Msub(x, reg(d), reg(n), reg(m), reg(a)),
        A64::Smulh(d, n, m) => A64::Smulh(reg(d), reg(n), reg(m)),
        A64::Umulh(d, n, m) => A64::Umulh(reg(d), reg(n), reg(m)),
        A64::Ubfm(x, d, n, immr, imms) => A64::Ubfm(x, reg(d), reg(n), immr, imms),
        A64::Sbfm(x, d, n, immr, imms) => A64::Sbfm(x, reg(d), reg(n), immr, imms),
        A64::Csel(x, d, n, m, code) => A64::Csel(x, reg(d), reg(n), reg(m), code),
        A64::Csinc(x, d, n, m, code) => A64::Csinc(x, reg(d), reg(n), reg(m), code),
        A64::B(distance) => A64::B(distance),
        A64::BCond(code, distance) => A64::BCond(code, distance),
        A64::Cbz(x, t, distance) => A64::Cbz(x, reg(t), distance),
        A64::Cbnz(x, t, distance) => A64::Cbnz(x, reg(t), distance),
        A64::Ldr(size, t, n, number) => A64::Ldr(size, reg(t), reg(n), number),
        A64::Str(size, t, n, number) => A64::Str(size, reg(t), reg(n), number),
        A64::Cas(size, s, t, n) => A64::Cas(size, reg(s), reg(t), reg(n)),
        A64::Swp(size, s, t, n) => A64::Swp(size, reg(s), reg(t), reg(n)),
        A64::Ldadd(size, s, t, n) => A64::Ldadd(size, reg(s), reg(t), reg(n)),
        A64::Ldclr(size, s, t, n) => A64::Ldclr(size, reg(s), reg(t), reg(n)),
        A64::Ldeor(size, s, t, n) => A64::Ldeor(size, reg(s), reg(t), reg(n)),
        A64::Ldset(size, s, t, n) => A64::Ldset(size, reg(s), reg(t), reg(n)),
        A64::DmbFull => A64::DmbFull,
        A64::DmbLd => A64::DmbLd,
        A64::DmbSt => A64::DmbSt,
        A64::Nop => A64::Nop,
        A64::Brk(number) => A64::Brk(number),
        A64::Svc(number) => A64::Svc(number),
    }
}
