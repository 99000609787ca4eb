use a64_code::{A64, XReg};
use std::fmt::{self, Display, Formatter, Write};

/// An instruction, printed as an assembler reads it.
#[derive(Clone, Copy)]
pub struct Assembly(pub A64<XReg>);

/// A register, printed by its name in the X or the W form.
#[derive(Clone, Copy)]
struct Register(bool, XReg);

impl Display for Register {
    fn fmt<W: Write>(&self, f: &mut Formatter<W>) -> fmt::Result {
        let letter = if self.0 { 'x' } else { 'w' };
        match self.1.number {
            31 => write!(f, "{letter}zr"),
            number => write!(f, "{letter}{number}"),
        }
    }
}

impl Display for Assembly {
    fn fmt<W: Write>(&self, f: &mut Formatter<W>) -> fmt::Result {
        match self.0 {
            A64::Add(x, d, n, m, kind, amount) => shifted(f, "add", [d, n, m], x, kind, amount),
            A64::Sub(x, d, n, m, kind, amount) => shifted(f, "sub", [d, n, m], x, kind, amount),
            A64::Subs(x, d, n, m, kind, amount) => shifted(f, "subs", [d, n, m], x, kind, amount),
            A64::And(x, d, n, m, kind, amount) => shifted(f, "and", [d, n, m], x, kind, amount),
            A64::Orr(x, d, n, m, kind, amount) => shifted(f, "orr", [d, n, m], x, kind, amount),
            A64::Eor(x, d, n, m, kind, amount) => shifted(f, "eor", [d, n, m], x, kind, amount),
            A64::AddImm(x, d, n, number) => with_number(f, "add", x, [d, n], number),
            A64::SubImm(x, d, n, number) => with_number(f, "sub", x, [d, n], number),
            A64::Movz(x, d, value, quarter) => quarter_of(
                f,
                "movz",
                Register(x, d),
                value,
                quarter,
            ),
            A64::Movk(x, d, value, quarter) => quarter_of(
                f,
                "movk",
                Register(x, d),
                value,
                quarter,
            ),
            A64::Movn(x, d, value, quarter) => quarter_of(
                f,
                "movn",
                Register(x, d),
                value,
                quarter,
            ),
            A64::Lslv(x, d, n, m) => three(f, "lslv", x, [d, n, m]),
            A64::Lsrv(x, d, n, m) => three(f, "lsrv", x, [d, n, m]),
            A64::Asrv(x, d, n, m) => three(f, "asrv", x, [d, n, m]),
            A64::Rorv(x, d, n, m) => three(f, "rorv", x, [d, n, m]),
            A64::Udiv(x, d, n, m) => three(f, "udiv", x, [d, n, m]),
            A64::Sdiv(x, d, n, m) => three(f, "sdiv", x, [d, n, m]),
            A64::Madd(x, d, n, m, a) => four(f, "madd", x, [d, n, m, a]),
            A64::Msub(x, d, n, m, a) => four(f, "msub", x, [d, n, m, a]),
            A64::Smulh(d, n, m) => three(f, "smulh", true, [d, n, m]),
            A64::Umulh(d, n, m) => three(f, "umulh", true, [d, n, m]),
            A64::Ubfm(x, d, n, immr, imms) => bitfield(f, "ubfm", x, [d, n], [immr, imms]),
            A64::Sbfm(x, d, n, immr, imms) => bitfield(f, "sbfm", x, [d, n], [immr, imms]),
            A64::Csel(x, d, n, m, condition) => chosen(f, "csel", x, [d, n, m], condition),
            A64::Csinc(x, d, n, m, condition) => chosen(f, "csinc", x, [d, n, m], condition),
            A64::B(distance) => write!(f, "b #{}", bytes(distance)),
            A64::BCond(condition, distance) => {
                write!(f, "b.{} #{}", condition_name(condition), bytes(distance))
            }
            A64::Cbz(x, t, distance) => {
                write!(f, "cbz {}, #{}", Register(x, t), bytes(distance))
            }
            A64::Cbnz(x, t, distance) => {
                write!(f, "cbnz {}, #{}", Register(x, t), bytes(distance))
            }
            A64::Ldr(size, t, n, number) => offset(f, "ldr", size, [t, n], number),
            A64::Str(size, t, n, number) => offset(f, "str", size, [t, n], number),
            A64::Cas(size, s, t, n) => atomic(f, "cas", size, [s, t, n]),
            A64::Swp(size, s, t, n) => atomic(f, "swp", size, [s, t, n]),
            A64::Ldadd(size, s, t, n) => atomic(f, "ldadd", size, [s, t, n]),
            A64::Ldclr(size, s, t, n) => atomic(f, "ldclr", size, [s, t, n]),
            A64::Ldeor(size, s, t, n) => atomic(f, "ldeor", size, [s, t, n]),
            A64::Ldset(size, s, t, n) => atomic(f, "ldset", size, [s, t, n]),
            A64::DmbFull => write!(f, "dmb ish"),
            A64::DmbLd => write!(f, "dmb ishld"),
            A64::DmbSt => write!(f, "dmb ishst"),
            A64::Nop => write!(f, "nop"),
            A64::Brk(number) => write!(f, "brk #{number}"),
            A64::Svc(number) => write!(f, "svc #{number}"),
        }
    }
}

fn three<W: Write>(f: &mut Formatter<W>, name: &str, x: bool, [d, n, m]: [XReg; 3]) -> fmt::Result {
    let (d, n, m) = (Register(x, d), Register(x, n), Register(x, m));
    write!(f, "{name} {d}, {n}, {m}")
}

fn four<W: Write>(
    f: &mut Formatter<W>,
    name: &str,
    x: bool,
    [d, n, m, a]: [XReg; 4],
) -> fmt::Result {
    three(f, name, x, [d, n, m])?;
    write!(f, ", {}", Register(x, a))
}

fn shifted<W: Write>(
    f: &mut Formatter<W>,
    name: &str,
    registers: [XReg; 3],
    x: bool,
    kind: u8,
    amount: u8,
) -> fmt::Result {
    three(f, name, x, registers)?;
    let kind = match kind {
        0 => "lsl",
        1 => "lsr",
        _ => "asr",
    };
    write!(f, ", {kind} #{amount}")
}

fn chosen<W: Write>(
    f: &mut Formatter<W>,
    name: &str,
    x: bool,
    registers: [XReg; 3],
    condition: u8,
) -> fmt::Result {
    three(f, name, x, registers)?;
    write!(f, ", {}", condition_name(condition))
}

fn with_number<W: Write>(
    f: &mut Formatter<W>,
    name: &str,
    x: bool,
    [d, n]: [XReg; 2],
    number: u16,
) -> fmt::Result {
    write!(
        f,
        "{name} {}, {}, #{number}",
        Register(x, d),
        Register(x, n)
    )
}

fn quarter_of<W: Write>(
    f: &mut Formatter<W>,
    name: &str,
    d: Register,
    value: u16,
    quarter: u8,
) -> fmt::Result {
    write!(f, "{name} {d}, #{value}, lsl #{}", 16 * u32::from(quarter))
}

fn bitfield<W: Write>(
    f: &mut Formatter<W>,
    name: &str,
    x: bool,
    [d, n]: [XReg; 2],
    [immr, imms]: [u8; 2],
) -> fmt::Result {
    write!(f, "{name} {}, {}", Register(x, d), Register(x, n))?;
    write!(f, ", #{immr}, #{imms}")
}

fn offset<W: Write>(
    f: &mut Formatter<W>,
    name: &str,
    size: u8,
    [t, n]: [XReg; 2],
    number: u16,
) -> fmt::Result {
    let offset = u32::from(number) * u32::from(size);
    write!(f, "{name}{} {}", suffix(size), Register(size == 8, t))?;
    write!(f, ", [{}, #{offset}]", Register(true, n))
}

fn atomic<W: Write>(
    f: &mut Formatter<W>,
    name: &str,
    size: u8,
    [s, t, n]: [XReg; 3],
) -> fmt::Result {
    write!(f, "{name}{} {}", suffix(size), Register(size == 8, s))?;
    write!(f, ", {}, [{}]", Register(size == 8, t), Register(true, n))
}

/// What the name of an access of fewer than 4 bytes ends with.
fn suffix(size: u8) -> &'static str {
    match size {
        1 => "b",
        2 => "h",
        _ => "",
    }
}

/// A distance in words, in bytes.
fn bytes(distance: i32) -> i64 {
    i64::from(distance) * 4
}

fn condition_name(condition: u8) -> &'static str {
    match condition {
        0 => "eq",
        1 => "ne",
        2 => "cs",
        3 => "cc",
        4 => "mi",
        5 => "pl",
        6 => "vs",
        7 => "vc",
        8 => "hi",
        9 => "ls",
        10 => "ge",
        11 => "lt",
        12 => "gt",
        _ => "le",
    }
}
