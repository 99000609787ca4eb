/// Numbers that only look random: xorshift of 64 bits.
#[derive(Clone, Copy)]
pub struct Random {
    state: u64,
}

impl Random {
    /// The numbers from a seed, which should not be 0.
    pub fn of(seed: u64) -> Random {
        Random { state: seed }
    }

    /// The next 64 bits.
    pub fn word(&mut self) -> u64 {
        let a = self.state ^ self.state << 13;
        let b = a ^ a >> 7;
        let c = b ^ b << 17;
        self.state = c;
        c
    }

    /// A number below a limit, or 0 where the limit is 0.
    pub fn below(&mut self, limit: u8) -> u8 {
        let word = self.word() >> 32;
        word.checked_rem(u64::from(limit)).unwrap_or(0) as u8
    }

    /// One of these numbers, or 0 where there is none.
    pub fn one_of(&mut self, numbers: &[u8]) -> u8 {
        let count = u8::try_from(numbers.len()).unwrap_or(u8::MAX);
        let index = self.below(count);
        numbers.get(usize::from(index)).copied().unwrap_or(0)
    }
}
