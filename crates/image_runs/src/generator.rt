use crate::assembler::{Assembler, Label};
use crate::random::Random;
use std::alloc::{AllocError, Global};

/// Registers that hold data: all but rsp, rdi (the cells), rbx (the depth of recursion) and r12 to r15 (counters).
const DATA: [u8; 9] = [0, 1, 2, 5, 6, 8, 9, 10, 11];

/// The numbers of conditions, without those of the parity flag.
const CONDITIONS: [u8; 14] = [0, 1, 2, 3, 4, 5, 6, 7, 8, 9, 12, 13, 14, 15];

/// A REX byte without W, R, X and B.
const REX: u8 = 0x40;

/// The prefix that locks memory.
const LOCK: u8 = 0xF0;

/// W of a REX byte.
const WIDE: u8 = 0x48;

/// Writes code by random numbers.
#[derive(Drop)]
pub struct Generator {
    pub code: Assembler,
    pub random: Random,
    pub input: Label,
    pub output: Label,
}

impl Generator {
    /// No code so far.
    pub fn new(alloc: Global, random: Random) -> Result<Generator, AllocError> {
        let mut code = Assembler::new(alloc);
        let input = code.label_at(0x1000)?;
        let output = code.label_at(0x1010)?;
        Ok(Generator {
            code,
            random,
            input,
            output,
        })
    }

    /// A register that holds data.
    pub fn data(&mut self) -> u8 {
        self.random.one_of(&DATA)
    }

    /// The number of a condition.
    pub fn condition(&mut self) -> u8 {
        self.random.one_of(&CONDITIONS)
    }

    /// Some ordinary instructions, one behind the other.
    pub fn instructions(&mut self) -> Result<(), AllocError> {
        let count = self.random.below(4).saturating_add(1);
        for _ in 0..count {
            self.instruction()?;
        }
        Ok(())
    }

    /// An ordinary instruction: no branch, and nothing but data registers, cells and flags is changed. No flag is left
    /// undefined.
    fn instruction(&mut self) -> Result<(), AllocError> {
        match self.random.below(20) {
            0..=2 => self.of_registers(),
            3 | 4 => self.of_cell(),
            5 => self.of_number(),
            6 => self.of_one(),
            7 => self.move_cell(),
            8 => self.set_condition(),
            9 => self.move_on_condition(),
            10 => self.extend(),
            11 => self.exchange(),
            12 => self.push_and_pop(),
            13 => self.wide_number(),
            14 => self.address(),
            15 => self.locked(),
            16 => self.exchange_cell(),
            17 => self.multiply(),
            18 => self.shift(),
            _ => self.code.push(b"\x0F\xAE\xF0"), // mfence
        }
    }

    /// W or nothing.
    fn width(&mut self) -> u8 {
        self.random.one_of(&[REX, WIDE])
    }

    /// An arithmetic opcode with the width in its lowest bit, for a ModRM that names the target; TEST is among them.
    fn arithmetic(&mut self) -> u8 {
        self.random.one_of(&[
            0x00, 0x01, 0x08, 0x09, 0x10, 0x11, 0x18, 0x19, 0x20, 0x21, 0x28, 0x29, 0x30, 0x31,
            0x38, 0x39, 0x84, 0x85,
        ])
    }

    /// A prefix, an opcode and the ModRM byte of two registers.
    fn two(&mut self, rex: u8, opcode: &[u8], r: u8, b: u8) -> Result<(), AllocError> {
        self.code.push(&[rex | r >> 3 << 2 | b >> 3])?;
        self.code.push(opcode)?;
        self.code.push(&[0xC0 | (r & 7) << 3 | b & 7])
    }

    /// A prefix, an opcode and the ModRM byte of a register and a cell of the first 16.
    fn with_cell(&mut self, rex: u8, opcode: &[u8], r: u8) -> Result<(), AllocError> {
        let distance = self.random.below(121);
        self.code.push(&[rex | r >> 3 << 2])?;
        self.code.push(opcode)?;
        self.code.push(&[0x47 | (r & 7) << 3, distance])
    }

    /// ADD, OR, ADC, SBB, AND, SUB, XOR, CMP or TEST of two registers.
    fn of_registers(&mut self) -> Result<(), AllocError> {
        let (rex, opcode) = (self.width(), self.arithmetic());
        let (r, b) = (self.data(), self.data());
        self.two(rex, &[opcode], r, b)
    }

    /// The same of a register and a cell, either of which may be the target.
    fn of_cell(&mut self) -> Result<(), AllocError> {
        let (rex, opcode) = (self.width(), self.arithmetic());
        let r = self.data();
        let into_register = if opcode < 0x40 {
            self.random.one_of(&[0, 2])
        } else {
            0
        };
        self.with_cell(rex, &[opcode | into_register], r)
    }

    /// The same of a register and a number of eight bits, without TEST.
    fn of_number(&mut self) -> Result<(), AllocError> {
        let (rex, b) = (self.width(), self.data());
        let operation = self.random.below(8);
        self.two(rex, &[0x83], operation, b)?;
        let number = self.random.below(255);
        self.code.push(&[number])
    }

    /// INC, DEC, NOT or NEG.
    fn of_one(&mut self) -> Result<(), AllocError> {
        let (rex, b) = (self.width(), self.data());
        match self.random.below(4) {
            0 => self.two(rex, &[0xFF], 0, b),
            1 => self.two(rex, &[0xFF], 1, b),
            2 => self.two(rex, &[0xF7], 2, b),
            _ => self.two(rex, &[0xF7], 3, b),
        }
    }

    /// MOV between a register and a cell.
    fn move_cell(&mut self) -> Result<(), AllocError> {
        let (rex, r) = (self.width(), self.data());
        let opcode = self.random.one_of(&[0x88, 0x89, 0x8A, 0x8B]);
        self.with_cell(rex, &[opcode], r)
    }

    /// SETcc.
    fn set_condition(&mut self) -> Result<(), AllocError> {
        let (condition, b) = (self.condition(), self.data());
        self.two(REX, &[0x0F, 0x90 | condition], 0, b)
    }

    /// CMOVcc.
    fn move_on_condition(&mut self) -> Result<(), AllocError> {
        let (rex, condition) = (self.width(), self.condition());
        let (r, b) = (self.data(), self.data());
        self.two(rex, &[0x0F, 0x40 | condition], r, b)
    }

    /// MOVZX or MOVSX.
    fn extend(&mut self) -> Result<(), AllocError> {
        let opcode = self.random.one_of(&[0xB6, 0xB7, 0xBE, 0xBF]);
        let (rex, r, b) = (self.width(), self.data(), self.data());
        self.two(rex, &[0x0F, opcode], r, b)
    }

    /// XCHG or XADD of two registers.
    fn exchange(&mut self) -> Result<(), AllocError> {
        let (rex, r, b) = (self.width(), self.data(), self.data());
        if self.random.below(2) == 0 {
            self.two(rex, &[0x87], r, b)
        } else {
            self.two(rex, &[0x0F, 0xC1], r, b)
        }
    }

    /// PUSH of one register and POP of another.
    fn push_and_pop(&mut self) -> Result<(), AllocError> {
        let (from, to) = (self.data(), self.data());
        self.code.push(&[
            REX | from >> 3,
            0x50 | from & 7,
            REX | to >> 3,
            0x58 | to & 7,
        ])
    }

    /// MOV of 64 bits.
    fn wide_number(&mut self) -> Result<(), AllocError> {
        let (b, number) = (self.data(), self.random.word());
        self.code.push(&[WIDE | b >> 3, 0xB8 | b & 7])?;
        self.code.push(&number.to_le_bytes())
    }

    /// LEA of the cells' address, twice the depth of recursion and a number.
    fn address(&mut self) -> Result<(), AllocError> {
        let (r, number) = (self.data(), self.random.below(255));
        self.code.push(&[WIDE | r >> 3 << 2, 0x8D, 0x44 | (r & 7) << 3, 0x5F, number])
    }

    /// ADD, OR, ADC, SBB, AND, SUB or XOR of a register to a cell, locked.
    fn locked(&mut self) -> Result<(), AllocError> {
        let (rex, r) = (self.width(), self.data());
        let opcode = self.random.one_of(&[
            0x00, 0x01, 0x08, 0x09, 0x10, 0x11, 0x18, 0x19, 0x20, 0x21, 0x28, 0x29, 0x30, 0x31,
        ]);
        self.code.push(&[LOCK])?;
        self.with_cell(rex, &[opcode], r)
    }

    /// XCHG, XADD or CMPXCHG of a cell and a register, locked.
    fn exchange_cell(&mut self) -> Result<(), AllocError> {
        let (rex, r) = (self.width(), self.data());
        self.code.push(&[LOCK])?;
        match self.random.below(3) {
            0 => self.with_cell(rex, &[0x87], r),
            1 => self.with_cell(rex, &[0x0F, 0xC1], r),
            _ => self.with_cell(rex, &[0x0F, 0xB1], r),
        }
    }

    /// IMUL of two registers, MUL of one, and a TEST behind it, which defines the flags.
    fn multiply(&mut self) -> Result<(), AllocError> {
        let (rex, r, b) = (self.width(), self.data(), self.data());
        if self.random.below(2) == 0 {
            self.two(rex, &[0x0F, 0xAF], r, b)?;
        } else {
            self.two(rex, &[0xF7], 4, b)?;
        }
        self.two(rex, &[0x85], r, r)
    }

    /// ROL, ROR, SHL, SHR or SAR of a register by a number or by CL, and a TEST behind it, which defines the flags.
    fn shift(&mut self) -> Result<(), AllocError> {
        let (rex, b) = (self.width(), self.data());
        let operation = self.random.one_of(&[0, 1, 4, 5, 7]);
        if self.random.below(2) == 0 {
            let count = self.random.below(70);
            self.two(rex, &[0xC1], operation, b)?;
            self.code.push(&[count])?;
        } else {
            self.two(rex, &[0xD3], operation, b)?;
        }
        self.two(rex, &[0x85], b, b)
    }
}
