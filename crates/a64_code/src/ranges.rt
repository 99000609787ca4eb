ghost use Rattle.std.specs.Prelude.{◌≡◌, ◌↔◌, ◌/◌, ◌&&◌, nat_lt, IsTrue};
ghost use Rattle.a64_code.specs.Ranges.{bits, IsEncodable};
ghost use Rattle.a64_code.specs.Tests.{is_register, is_operand, is_size, is_shift};
ghost use Rattle.a64_code.specs.Tests.{is_distance, is_encodable};

use crate::{A64, XReg};

/// Whether the operands are in range, so that a word spells the instruction.
pub(crate) fn is_encodable(a: A64<XReg>) -> bool
    ensures test { result ≡ is_encodable a }
    ensures fact { IsTrue result ↔ IsEncodable a }
{
    match a {
        A64::Add(x, d, n, m, kind, amount) => is_register(d)
            && are_operands(n, m)
            && is_shift(x, kind, amount),
        A64::Sub(x, d, n, m, kind, amount) => is_register(d)
            && are_operands(n, m)
            && is_shift(x, kind, amount),
        A64::Subs(x, d, n, m, kind, amount) => is_operand(d)
            && are_operands(n, m)
            && is_shift(x, kind, amount),
        A64::And(x, d, n, m, kind, amount) => is_register(d)
            && are_operands(n, m)
            && is_shift(x, kind, amount),
        A64::Orr(x, d, n, m, kind, amount) => is_register(d)
            && are_operands(n, m)
            && is_shift(x, kind, amount),
        A64::Eor(x, d, n, m, kind, amount) => is_register(d)
            && are_operands(n, m)
            && is_shift(x, kind, amount),
        A64::AddImm(_, d, n, number) => is_register(d) && is_register(n) && number < 0x1000,
        A64::SubImm(_, d, n, number) => is_register(d) && is_register(n) && number < 0x1000,
        A64::Movz(x, d, _, quarter) => is_register(d) && has_quarter(x, quarter),
        A64::Movk(x, d, _, quarter) => is_register(d) && has_quarter(x, quarter),
        A64::Movn(x, d, _, quarter) => is_register(d) && has_quarter(x, quarter),
        A64::Lslv(_, d, n, m) => is_register(d) && are_operands(n, m),
        A64::Lsrv(_, d, n, m) => is_register(d) && are_operands(n, m),
        A64::Asrv(_, d, n, m) => is_register(d) && are_operands(n, m),
        A64::Rorv(_, d, n, m) => is_register(d) && are_operands(n, m),
        A64::Udiv(_, d, n, m) => is_register(d) && are_operands(n, m),
        A64::Sdiv(_, d, n, m) => is_register(d) && are_operands(n, m),
        A64::Madd(_, d, n, m, a) => is_register(d) && are_operands(n, m) && is_register(a),
        A64::Msub(_, d, n, m, a) => is_register(d) && are_operands(n, m) && is_register(a),
        A64::Smulh(d, n, m) => is_register(d) && are_operands(n, m),
        A64::Umulh(d, n, m) => is_register(d) && are_operands(n, m),
        A64::Ubfm(x, d, n, r, s) => is_register(d) && is_register(n) && r < bits(x) && s < bits(x),
        A64::Sbfm(x, d, n, r, s) => is_register(d) && is_register(n) && r < bits(x) && s < bits(x),
        A64::Csel(_, d, n, m, condition) => is_register(d) && are_operands(n, m) && condition < 14,
        A64::Csinc(_, d, n, m, condition) => is_register(d) && are_operands(n, m) && condition < 14,
        A64::B(distance) => is_far(distance),
        A64::BCond(condition, distance) => condition < 14 && is_near(distance),
        A64::Cbz(_, t, distance) => is_register(t) && is_near(distance),
        A64::Cbnz(_, t, distance) => is_register(t) && is_near(distance),
        A64::Ldr(size, t, n, number) => is_size(size)
            && is_register(t)
            && is_register(n)
            && number < 0x1000,
        A64::Str(size, t, n, number) => is_size(size)
            && is_operand(t)
            && is_register(n)
            && number < 0x1000,
        A64::Cas(size, s, t, n) => is_size(size) && are_registers(s, t, n),
        A64::Swp(size, s, t, n) => is_size(size) && are_registers(s, t, n),
        A64::Ldadd(size, s, t, n) => is_size(size) && are_registers(s, t, n),
        A64::Ldclr(size, s, t, n) => is_size(size) && are_registers(s, t, n),
        A64::Ldeor(size, s, t, n) => is_size(size) && are_registers(s, t, n),
        A64::Ldset(size, s, t, n) => is_size(size) && are_registers(s, t, n),
        A64::DmbFull => true,
        A64::DmbLd => true,
        A64::DmbSt => true,
        A64::Nop => true,
        A64::Brk(number) => 1 <= number && number <= 4,
        A64::Svc(number) => 1 <= number && number <= 3,
    }
}

fn is_register(r: XReg) -> bool
    ensures { result ≡ is_register r }
{
    r.number < 29 && r.number != 18
}

fn is_operand(r: XReg) -> bool
    ensures { result ≡ is_operand r }
{
    is_register(r) || r.number == 31
}

fn are_operands(n: XReg, m: XReg) -> bool
    ensures { result ≡ (is_operand n && is_operand m) }
{
    is_operand(n) && is_operand(m)
}

fn are_registers(s: XReg, t: XReg, n: XReg) -> bool
    ensures { result ≡ (is_register s && (is_register t && is_register n)) }
{
    is_register(s) && is_register(t) && is_register(n)
}

fn is_size(size: u8) -> bool
    ensures { result ≡ is_size size }
{
    size == 1 || size == 2 || size == 4 || size == 8
}

fn is_shift(x: bool, kind: u8, amount: u8) -> bool
    ensures { result ≡ is_shift x kind amount }
{
    kind < 3 && amount < bits(x)
}

/// Whether the form has the quarter.
fn has_quarter(x: bool, quarter: u8) -> bool
    ensures { result ≡ nat_lt quarter (bits x / 16) }
{
    quarter < bits(x) / 16
}

/// Whether 26 bits in two's complement hold the distance.
fn is_far(distance: i32) -> bool
    ensures { result ≡ is_distance 26 distance }
{
    -0x200_0000 <= distance && distance < 0x200_0000
}

/// Whether 19 bits in two's complement hold the distance.
fn is_near(distance: i32) -> bool
    ensures { result ≡ is_distance 19 distance }
{
    -0x4_0000 <= distance && distance < 0x4_0000
}

/// How many bits a form works on.
fn bits(x: bool) -> u8
    ensures { result ≡ bits x }
{
    if x { 64 } else { 32 }
}
