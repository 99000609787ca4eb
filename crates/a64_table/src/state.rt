ghost use Rattle.std.specs.Prelude.{◌≡◌, Option};
ghost use Rattle.a64_code.specs.Ranges.{IsOperand};
ghost use Rattle.a64_table.specs.State.{xregs, value, held, moved};
ghost use Rattle.a64_table.specs.Answers.{with_result, next_state};

use a64_code::XReg;

/// What a thread holds between two words: X0 to X30, the flags, and the address of the next word.
#[derive(Clone, Copy, Debug, PartialEq, Eq)]
pub struct A64State {
    pub regs: [u64; 31],
    pub n: bool,
    pub z: bool,
    pub c: bool,
    pub v: bool,
    pub at: u64,
}

/// The flags: negative, zero, carry (no borrow) and overflow.
#[derive(Clone, Copy, PartialEq, Eq)]
pub struct Nzcv {
    pub n: bool,
    pub z: bool,
    pub c: bool,
    pub v: bool,
}

/// What a word comes to: how far it goes, in words, what its result register gets, if it has one, and
/// the flags.
#[derive(Clone, Copy, PartialEq, Eq)]
pub struct Done {
    pub distance: i32,
    pub value: u64,
    pub nzcv: Nzcv,
}

impl A64State {
    /// What a register holds; the zero register holds 0.
    pub(crate) fn value(&self, r: XReg) -> u64
        requires { IsOperand r }
        ensures { result ≡ value xregs (held self.now) r }
    {
        if r.number == 31 {
            0
        } else {
            self.regs[usize::from(r.number)]
        }
    }

    pub(crate) fn nzcv(&self) -> Nzcv
        ensures { result ≡ (held self.now).nzcv }
    {
        Nzcv {
            n: self.n,
            z: self.z,
            c: self.c,
            v: self.v,
        }
    }

    /// The state after a word that sets this register.
    pub(crate) fn next(&self, set: Option<XReg>, done: Done) -> A64State
        ensures { result ≡ next_state set done self.now }
    {
        A64State {
            regs: self.with_result(set, done.value),
            n: done.nzcv.n,
            z: done.nzcv.z,
            c: done.nzcv.c,
            v: done.nzcv.v,
            at: moved(self.at, done.distance),
        }
    }

    /// The registers with a value for one of them. The zero register keeps none.
    fn with_result(&self, set: Option<XReg>, value: u64) -> [u64; 31]
        ensures { result ≡ with_result set value self.now.regs }
    {
        let mut regs = self.regs;
        if let Some(r) = set {
            if r.number < 31 {
                regs[usize::from(r.number)] = value;
            }
        }
        regs
    }
}

/// So many words on from an address, modulo 2^64.
fn moved(at: u64, distance: i32) -> u64
    ensures { result ≡ moved at distance }
{
    let exact = i128::from(at) + 4 * i128::from(distance);
    exact.rem_euclid(1 << 64).unsigned_abs() as u64
}
