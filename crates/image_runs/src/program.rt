use crate::assembler::Label;
use crate::generator::Generator;
use crate::random::Random;
use std::alloc::{AllocError, Global};

const RETURN: &[u8] = b"\xC3";

const CALL: &[u8] = b"\xE8";

const JUMP: &[u8] = b"\xE9";

/// JE
const JUMP_IF_ZERO: &[u8] = b"\x0F\x84";

/// JNE
const JUMP_IF_NOT_ZERO: &[u8] = b"\x0F\x85";

/// test rbx, rbx
const TEST_DEPTH: &[u8] = b"\x48\x85\xDB";

/// dec rbx
const LESS_DEPTH: &[u8] = b"\x48\xFF\xCB";

/// xchg rdi, rax
const SWAP_OUTPUT: &[u8] = b"\x48\x87\xC7";

/// The functions of a program: the thread begins at the first; each of the first four calls only later ones; the fifth
/// calls itself, and the sixth and seventh each other, as deep as rbx says.
#[derive(Clone, Copy)]
struct Functions {
    labels: [Label; 7],
}

impl Functions {
    fn label(&self, number: u8) -> Label {
        let Functions {
            labels: [a, b, c, d, e, f, g],
        } = *self;
        match number {
            0 => a,
            1 => b,
            2 => c,
            3 => d,
            4 => e,
            5 => f,
            _ => g,
        }
    }
}

/// The code of a program: seven functions, of which those that no other calls are left out of what is translated.
pub fn program(alloc: Global, random: Random) -> Result<Vec<u8>, AllocError> {
    let mut generator = Generator::new(alloc, random)?;
    let functions = generator.functions()?;
    for number in 0..4 {
        generator.function(number, &functions)?;
    }
    generator.recursive(functions.label(4))?;
    generator.mutual(functions.label(5), functions.label(6))?;
    Ok(generator.code.finish())
}

impl Generator {
    fn functions(&mut self) -> Result<Functions, AllocError> {
        let code = &mut self.code;
        Ok(Functions {
            labels: [
                code.label()?,
                code.label()?,
                code.label()?,
                code.label()?,
                code.label()?,
                code.label()?,
                code.label()?,
            ],
        })
    }

    /// A function that calls only later ones.
    fn function(&mut self, number: u8, functions: &Functions) -> Result<(), AllocError> {
        self.code.place(functions.label(number));
        let count = self.random.below(4).saturating_add(3);
        for _ in 0..count {
            self.statement(number, functions)?;
        }
        match self.random.below(4) {
            0 => self.jump_to_later(number, functions),
            1 => self.jump_to_listed(),
            _ => self.code.push(RETURN),
        }
    }

    /// Code that goes on behind it in most runs; the first function is not left early.
    fn statement(&mut self, number: u8, functions: &Functions) -> Result<(), AllocError> {
        match self.random.below(8) {
            0 => self.instructions(),
            1 => self.skip(),
            2 => self.choice(),
            3 | 4 => self.repeat(number, functions),
            5 if number > 0 => self.leave_early(),
            6 => self.transfer(),
            _ => self.call_later(number, functions),
        }
    }

    /// A jump by a random condition.
    fn jump_on_condition(&mut self, to: Label) -> Result<(), AllocError> {
        let condition = self.condition();
        self.code.branch(&[0x0F, 0x80 | condition], to)
    }

    /// Instructions that a condition skips.
    fn skip(&mut self) -> Result<(), AllocError> {
        let behind = self.code.label()?;
        self.instructions()?;
        self.jump_on_condition(behind)?;
        self.instructions()?;
        self.code.place(behind);
        Ok(())
    }

    /// One of two lists of instructions.
    fn choice(&mut self) -> Result<(), AllocError> {
        let (other, behind) = (self.code.label()?, self.code.label()?);
        self.instructions()?;
        self.jump_on_condition(other)?;
        self.instructions()?;
        self.code.branch(JUMP, behind)?;
        self.code.place(other);
        self.instructions()?;
        self.code.place(behind);
        Ok(())
    }

    /// A loop of one to three rounds, which may call; each function has its own counter, one of r12 to r15.
    fn repeat(&mut self, number: u8, functions: &Functions) -> Result<(), AllocError> {
        let counter = 4 + number % 4;
        let top = self.code.label()?;
        let rounds = self.random.below(3).saturating_add(1);
        self.code.push(&[0x41, 0xB8 | counter, rounds, 0, 0, 0])?;
        self.code.place(top);
        match self.random.below(3) {
            0 => self.call_later(number, functions)?,
            1 => self.skip()?,
            _ => self.instructions()?,
        }
        self.code.push(&[0x49, 0xFF, 0xC8 | counter])?;
        self.code.branch(JUMP_IF_NOT_ZERO, top)
    }

    /// A return, or now and then UD2, that a condition skips.
    fn leave_early(&mut self) -> Result<(), AllocError> {
        let behind = self.code.label()?;
        self.instructions()?;
        self.jump_on_condition(behind)?;
        if self.random.below(8) == 0 {
            self.code.push(b"\x0F\x0B")?;
        } else {
            self.code.push(RETURN)?;
        }
        self.code.place(behind);
        Ok(())
    }

    /// A call of the listed input, or of the listed output with rax.
    fn transfer(&mut self) -> Result<(), AllocError> {
        let (input, output) = (self.input, self.output);
        if self.random.below(2) == 0 {
            return self.code.branch(CALL, input);
        }
        self.code.push(SWAP_OUTPUT)?;
        self.code.branch(CALL, output)?;
        self.code.push(SWAP_OUTPUT)
    }

    /// A jump to a listed function.
    fn jump_to_listed(&mut self) -> Result<(), AllocError> {
        let to = if self.random.below(2) == 0 {
            self.input
        } else {
            self.output
        };
        self.code.branch(JUMP, to)
    }

    /// A later function, and in rbx how deep it goes where it calls itself.
    fn later(&mut self, number: u8, functions: &Functions) -> Result<Label, AllocError> {
        let later = number
            .saturating_add(1)
            .saturating_add(self.random.below(5_u8.saturating_sub(number)));
        if later > 3 {
            let depth = self.random.below(5);
            self.code.push(&[0xBB, depth, 0, 0, 0])?;
        }
        Ok(functions.label(later))
    }

    fn call_later(&mut self, number: u8, functions: &Functions) -> Result<(), AllocError> {
        let to = self.later(number, functions)?;
        self.code.branch(CALL, to)
    }

    /// A jump to a later function, at times by a condition with a return behind it.
    fn jump_to_later(&mut self, number: u8, functions: &Functions) -> Result<(), AllocError> {
        let to = self.later(number, functions)?;
        if self.random.below(2) == 0 {
            return self.code.branch(JUMP, to);
        }
        self.jump_on_condition(to)?;
        self.code.push(RETURN)
    }

    /// A function that calls itself, once or twice, unless rbx is 0.
    fn recursive(&mut self, own: Label) -> Result<(), AllocError> {
        let out = self.code.label()?;
        self.code.place(own);
        self.code.push(TEST_DEPTH)?;
        self.code.branch(JUMP_IF_ZERO, out)?;
        self.code.push(LESS_DEPTH)?;
        self.instructions()?;
        self.code.branch(CALL, own)?;
        self.instructions()?;
        if self.random.below(2) == 0 {
            self.code.branch(CALL, own)?;
        }
        self.code.place(out);
        self.code.push(RETURN)
    }

    /// Two functions, of which the first goes to the second by a jump or a call, and the second calls the first, unless
    /// rbx is 0.
    fn mutual(&mut self, own: Label, other: Label) -> Result<(), AllocError> {
        let (go, out) = (self.code.label()?, self.code.label()?);
        self.code.place(own);
        self.code.push(TEST_DEPTH)?;
        self.code.branch(JUMP_IF_NOT_ZERO, go)?;
        self.code.push(RETURN)?;
        self.code.place(go);
        self.code.push(LESS_DEPTH)?;
        self.instructions()?;
        let way = if self.random.below(2) == 0 {
            CALL
        } else {
            JUMP
        };
        self.code.branch(way, other)?;
        self.instructions()?;
        self.code.push(RETURN)?;
        self.code.place(other);
        self.code.push(TEST_DEPTH)?;
        self.code.branch(JUMP_IF_ZERO, out)?;
        self.code.push(LESS_DEPTH)?;
        self.code.branch(CALL, own)?;
        self.code.place(out);
        self.instructions()?;
        self.code.push(RETURN)
    }
}
