ghost use Rattle.std.specs.Prelude.{◌<◌};
ghost use Rattle.a64_code.specs.Ranges.{IsRegister, IsOperand, IsSize, IsDistance};

use a64_code::XReg;

/// Operands in range, one after the other: the same ones in each run.
#[derive(Drop)]
pub struct Draw {
    state: u64,
}

impl Draw {
    pub fn new() -> Draw {
        Draw { state: 1 }
    }

    /// A number below the limit, by the linear congruential generator of Knuth's MMIX.
    pub fn below(&mut self, limit: u32) -> u32
        requires { 0 < limit }
        ensures { result < limit }
    {
        self.state = self
            .state
            .wrapping_mul(6_364_136_223_846_793_005)
            .wrapping_add(1_442_695_040_888_963_407);
        ((self.state >> 33) % u64::from(limit)) as u32
    }

    /// A number of at most 8 bits.
    pub fn byte(&mut self, limit: u8) -> u8
        requires { 0 < limit }
        ensures { result < limit }
    {
        self.below(u32::from(limit)) as u8
    }

    pub fn form(&mut self) -> bool {
        self.below(2) == 1
    }

    pub fn register(&mut self) -> XReg
        ensures { IsRegister result }
    {
        let number = self.byte(28);
        XReg {
            number: if number < 18 { number } else { number + 1 },
        }
    }

    pub fn operand(&mut self) -> XReg
        ensures { IsOperand result }
    {
        if self.below(5) == 0 {
            XReg { number: 31 }
        } else {
            self.register()
        }
    }

    pub fn size(&mut self) -> u8
        ensures { IsSize result }
    {
        match self.below(4) {
            0 => 1,
            1 => 2,
            2 => 4,
            _ => 8,
        }
    }

    /// A distance of 19 bits.
    pub fn near(&mut self) -> i32
        ensures { IsDistance 19 result }
    {
        self.below(0x8_0000) as i32 - 0x4_0000
    }

    /// A distance of 26 bits.
    pub fn far(&mut self) -> i32
        ensures { IsDistance 26 result }
    {
        self.below(0x400_0000) as i32 - 0x200_0000
    }
}
