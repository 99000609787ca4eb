use super::*;
use x64_syntax::{AluOp, Mem, Operand, Reg, Width};

const RAX: Operand = Operand::Reg(Reg {
    number: 0,
    high: false,
});

// The same bytes, one with and one without what makes the difference, side by side. The instructions
// are the manual's; each but the refused ones is also GNU objdump's.
#[test]
fn answers_at_the_edges(rt: HostRuntime) {
    let cases: [(&[u8], Result<(Instr, u8), DecodeFault>); 18] = [
        (&[], Err(DecodeFault::Cut)),
        (&[0x48, 0x8B], Err(DecodeFault::Cut)),
        (&[0x64, 0x90], Err(DecodeFault::Unknown)),
        (&[0xF0, 0x90], Err(DecodeFault::Unknown)),
        (&[0xF3, 0x0F, 0x1E, 0xFA], Ok((Instr::Endbr, 4))),
        (&[0x66, 0xF3], Err(DecodeFault::Unknown)),
        (&[0xF3], Err(DecodeFault::Cut)),
        // CMP with memory takes no F0, and ADD with a register takes none either
        (&[0xF0, 0x39, 0x00], Err(DecodeFault::Unknown)),
        (&[0xF0, 0x01, 0xC0], Err(DecodeFault::Unknown)),
        (
            &[0xF0, 0x01, 0x00],
            Ok((Instr::Alu(AluOp::Add, Width::Long, at(0), RAX, true), 3)),
        ),
        // AH and SPL
        (
            &[0x88, 0xE0],
            Ok((Instr::Mov(Width::Byte, RAX, register(0, true)), 2)),
        ),
        (
            &[0x40, 0x88, 0xE0],
            Ok((Instr::Mov(Width::Byte, RAX, register(4, false)), 3)),
        ),
        // the index 4 is none without REX.X, and r12 with it
        (
            &[0x8B, 0x04, 0x20],
            Ok((Instr::Mov(Width::Long, RAX, at(0)), 3)),
        ),
        (
            &[0x42, 0x8B, 0x04, 0x20],
            Ok((Instr::Mov(Width::Long, RAX, at_index(0, 12)), 4)),
        ),
        // 90 with REX.B exchanges r8
        (&[0x40, 0x90], Ok((Instr::Nop, 2))),
        (
            &[0x41, 0x90],
            Ok((Instr::Xchg(Width::Long, RAX, register(8, false), false), 2)),
        ),
        // a displacement is sign-extended
        (&[0xEB, 0xFE], Ok((Instr::Jmp(0xFFFF_FFFF_FFFF_FFFE), 2))),
        (&[0x8F, 0x08], Err(DecodeFault::Unknown)),
    ];
    for (bytes, answer) in cases {
        assert_eq!(rt; decode_one(bytes), answer, "at {bytes:?}");
    }
}

// An instruction has 15 bytes at most.
#[test]
fn limit_of_fifteen_bytes(rt: HostRuntime) {
    let mut bytes = [0x66; 16];
    assert_eq!(rt; decode_one(&bytes), Err(DecodeFault::TooLong));
    bytes[15] = 0x90;
    assert_eq!(rt; decode_one(&bytes), Err(DecodeFault::TooLong));
    bytes[14] = 0x90;
    assert_eq!(rt; decode_one(&bytes), Ok((Instr::Nop, 15)));
    assert_eq!(rt; decode_one(&bytes[..14]), Err(DecodeFault::Cut));
    assert_eq!(rt; decode_one(&bytes[1..15]), Ok((Instr::Nop, 14)));
}

fn register(number: u8, high: bool) -> Operand {
    Operand::Reg(Reg { number, high })
}

fn at(base: u8) -> Operand {
    Operand::Mem(Mem {
        base: Some(base),
        index: None,
        scale: 1,
        offset: 0,
        rip: false,
    })
}

fn at_index(base: u8, index: u8) -> Operand {
    Operand::Mem(Mem {
        base: Some(base),
        index: Some(index),
        scale: 1,
        offset: 0,
        rip: false,
    })
}
