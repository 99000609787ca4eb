//! The operations against what a processor's own instructions gave. The tables have a case a line, in hexadecimal. In the
//! flags of a case CF is 1, ZF 2, SF 4 and OF 8.

ghost use Rattle.std.specs.Prelude.{◌≡◌, ◌^◌, ◌<◌, ◌↔◌, IsTrue};
ghost use Rattle.word_arith.specs.Width.{IsWidth};

mod width_16;
mod width_32;
mod width_64;
mod width_8;

use crate::{Alu, DivFault, Flags, Logic, Outcome, Quotient, Rotate, Shift, cond};
use std::alloc::Global;
use std::process::Abort;
use std::test::Fail;

/// The conditions that held at each state of the flags, the condition of code k as bit k.
const CONDITIONS: [u16; 16] = [
    0xa2aa, 0xa266, 0x625a, 0x6256, 0x51aa, 0x5166, 0x515a, 0x5156, 0x52a9, 0x5265, 0x5259, 0x5255,
    0xa1a9, 0xa165, 0x6159, 0x6155,
];

/// The numbers of a line.
fn numbers(alloc: Global, line: &str) -> Result<Vec<u64>, Fail> {
    let mut all = Vec::new(alloc);
    for word in line.split_ascii_whitespace() {
        all.push(u64::from_str_radix(word, 16)?)?;
    }
    Ok(all)
}

fn flags_of(bits: u64) -> Flags {
    Flags {
        cf: bits & 1 != 0,
        zf: bits & 2 != 0,
        sf: bits & 4 != 0,
        of: bits & 8 != 0,
    }
}

fn outcome_of(value: u64, bits: u64) -> Outcome {
    Outcome {
        value,
        flags: flags_of(bits),
    }
}

fn fits<const W: u32>(a: u64) -> bool
    requires { IsWidth W }
    ensures { IsTrue result ↔ (a < 2 ^ W) }
{
    u128::from(a) < 1u128 << W
}

fn check_outcomes(rt: &impl Abort, given: &[Outcome], wanted: &[u64]) {
    assert_eq!(rt; wanted.len(), 2 * given.len());
    for (outcome, pair) in given.iter().zip(wanted.chunks_exact(2)) {
        if let [value, flags] = pair {
            assert_eq!(rt; *outcome, outcome_of(*value, *flags));
        }
    }
}

/// Cases of a, b, the carry, and value and flags of ADD, ADC, SUB, SBB, NEG a, AND, OR, XOR.
fn check_sums<const W: u32>(rt: &impl Abort, row: &[u64])
    requires { IsWidth W }
{
    let [a, b, carry, wanted @ ..] = row else {
        panic!(rt; "a case of sums");
    };
    let (a, b, cf) = (*a, *b, *carry == 1);
    assert!(rt; fits::<W>(a) && fits::<W>(b));
    let given = [
        Alu::<W>::add(a, b),
        Alu::<W>::adc(a, b, cf),
        Alu::<W>::sub(a, b),
        Alu::<W>::sbb(a, b, cf),
        Alu::<W>::neg(a),
        Alu::<W>::logic(Logic::And, a, b),
        Alu::<W>::logic(Logic::Or, a, b),
        Alu::<W>::logic(Logic::Xor, a, b),
    ];
    check_outcomes(rt, &given, wanted);
}

/// Cases of a, the count, the flags before, and value and flags of SHL, SHR, SAR, ROL, ROR.
fn check_shifts<const W: u32>(rt: &impl Abort, row: &[u64])
    requires { IsWidth W }
{
    let [a, count, old, wanted @ ..] = row else {
        panic!(rt; "a case of shifts");
    };
    let (a, count, old) = (*a, *count, flags_of(*old));
    assert!(rt; fits::<W>(a) && count < 256);
    let count = count as u8;
    let given = [
        Alu::<W>::shift(Shift::Shl, a, count, old),
        Alu::<W>::shift(Shift::Shr, a, count, old),
        Alu::<W>::shift(Shift::Sar, a, count, old),
        Alu::<W>::rotate(Rotate::Rol, a, count, old),
        Alu::<W>::rotate(Rotate::Ror, a, count, old),
    ];
    check_outcomes(rt, &given, wanted);
}

/// Cases of a, b, and the low half, the high half and OF of MUL and IMUL.
fn check_products<const W: u32>(rt: &impl Abort, row: &[u64])
    requires { IsWidth W }
{
    let [a, b, low, high, over, signed_low, signed_high, signed_over] = row else {
        panic!(rt; "a case of products");
    };
    let (a, b) = (*a, *b);
    assert!(rt; fits::<W>(a) && fits::<W>(b));
    let plain = Alu::<W>::mul(false, a, b);
    let signed = Alu::<W>::mul(true, a, b);
    assert_eq!(rt;
        (plain.low, plain.high, plain.over),
        (*low, *high, *over == 1)
    );
    assert_eq!(rt;
        (signed.low, signed.high, signed.over),
        (*signed_low, *signed_high, *signed_over == 1)
    );
}

/// The answer of a case: a quotient and a remainder with 0 after them, or 1 for a divisor 0 and 2 for a quotient
/// that does not fit.
fn answer_of(quotient: u64, remainder: u64, fault: u64) -> Result<Quotient, DivFault> {
    match fault {
        0 => Ok(Quotient {
            quotient,
            remainder,
        }),
        1 => Err(DivFault::Zero),
        _ => Err(DivFault::Range),
    }
}

/// Cases of the high half, the low half, the divisor, and the answers of DIV and IDIV.
fn check_quotients<const W: u32>(rt: &impl Abort, row: &[u64])
    requires { IsWidth W }
{
    let [
        high,
        low,
        by,
        quotient,
        remainder,
        fault,
        signed_quotient,
        signed_remainder,
        signed_fault,
    ] = row
    else {
        panic!(rt; "a case of quotients");
    };
    let (high, low, by) = (*high, *low, *by);
    assert!(rt; fits::<W>(high) && fits::<W>(low) && fits::<W>(by));
    let plain = answer_of(*quotient, *remainder, *fault);
    let signed = answer_of(*signed_quotient, *signed_remainder, *signed_fault);
    assert_eq!(rt; Alu::<W>::div(false, high, low, by), plain);
    assert_eq!(rt; Alu::<W>::div(true, high, low, by), signed);
}

#[test]
fn sums_as_the_processor(rt: HostRuntime) -> Result<(), Fail> {
    for line in width_8::SUMS.lines() {
        check_sums::<8>(&rt, numbers(rt.alloc(), line)?.as_slice());
    }
    for line in width_16::SUMS.lines() {
        check_sums::<16>(&rt, numbers(rt.alloc(), line)?.as_slice());
    }
    for line in width_32::SUMS.lines() {
        check_sums::<32>(&rt, numbers(rt.alloc(), line)?.as_slice());
    }
    for line in width_64::SUMS.lines() {
        check_sums::<64>(&rt, numbers(rt.alloc(), line)?.as_slice());
    }
    Ok(())
}

#[test]
fn shifts_as_the_processor(rt: HostRuntime) -> Result<(), Fail> {
    for line in width_8::SHIFTS.lines() {
        check_shifts::<8>(&rt, numbers(rt.alloc(), line)?.as_slice());
    }
    for line in width_16::SHIFTS.lines() {
        check_shifts::<16>(&rt, numbers(rt.alloc(), line)?.as_slice());
    }
    for line in width_32::SHIFTS.lines() {
        check_shifts::<32>(&rt, numbers(rt.alloc(), line)?.as_slice());
    }
    for line in width_64::SHIFTS.lines() {
        check_shifts::<64>(&rt, numbers(rt.alloc(), line)?.as_slice());
    }
    Ok(())
}

#[test]
fn products_as_the_processor(rt: HostRuntime) -> Result<(), Fail> {
    for line in width_8::PRODUCTS.lines() {
        check_products::<8>(&rt, numbers(rt.alloc(), line)?.as_slice());
    }
    for line in width_16::PRODUCTS.lines() {
        check_products::<16>(&rt, numbers(rt.alloc(), line)?.as_slice());
    }
    for line in width_32::PRODUCTS.lines() {
        check_products::<32>(&rt, numbers(rt.alloc(), line)?.as_slice());
    }
    for line in width_64::PRODUCTS.lines() {
        check_products::<64>(&rt, numbers(rt.alloc(), line)?.as_slice());
    }
    Ok(())
}

#[test]
fn quotients_as_the_processor(rt: HostRuntime) -> Result<(), Fail> {
    for line in width_8::QUOTIENTS.lines() {
        check_quotients::<8>(&rt, numbers(rt.alloc(), line)?.as_slice());
    }
    for line in width_16::QUOTIENTS.lines() {
        check_quotients::<16>(&rt, numbers(rt.alloc(), line)?.as_slice());
    }
    for line in width_32::QUOTIENTS.lines() {
        check_quotients::<32>(&rt, numbers(rt.alloc(), line)?.as_slice());
    }
    for line in width_64::QUOTIENTS.lines() {
        check_quotients::<64>(&rt, numbers(rt.alloc(), line)?.as_slice());
    }
    Ok(())
}

#[test]
fn conditions_as_the_processor(rt: HostRuntime) {
    for (state, held) in CONDITIONS.iter().enumerate() {
        let flags = flags_of(state as u64);
        for code in 0u8..16 {
            if code / 2 != 5 {
                let wanted = (*held >> code) & 1 == 1;
                assert_eq!(rt; cond(code, flags), wanted, "code {code} at flags {state}");
            }
        }
    }
}
