ghost use Rattle.std.specs.Prelude.{◌≡◌, ℕ, ◌-◌, ◌%◌, ◌^◌, ◌<◌, ◌≤◌};
ghost use Rattle.word_arith.specs.Width.{IsWidth};
ghost use Rattle.word_arith.specs.Turns.{turn_left};
ghost use Rattle.alu_width.specs.Effects.{settled, turn_effects};
ghost use Rattle.alu_width.specs.Turns.{turned, turn_carry, turn_overflow, rotate_outcome};

use crate::flags::{Flags, Outcome};
use crate::operations::Rotate;
use crate::words::Alu;

impl<const W: u32> Alu<W> {
    /// ROL and ROR by a count, which is masked as a shift's and turns modulo W. ZF and SF stay as they were;
    /// OF is cleared at masked counts over 1.
    #[tactic(auto, unfolding(crate::specs::Turns::rotate_outcome))]
    pub fn rotate(op: Rotate, a: u64, count: u8, old: Flags) -> Outcome
        requires width { IsWidth W }
        requires a_fits { a < 2 ^ W }
        ensures { result ≡ rotate_outcome op W a count old }
    {
        let n = Self::masked(count);
        let value = Self::turned(op, a, n % W);
        let new = Flags {
            cf: Self::turn_carry(op, value),
            of: Self::turn_overflow(op, value),
            ..old
        };
        Outcome {
            value,
            flags: Self::turn_flags(n, new, old),
        }
    }

    fn turned(op: Rotate, a: u64, k: u32) -> u64
        requires width { IsWidth W }
        requires a_fits { a < 2 ^ W }
        requires k_fits { k < W }
        ensures { result ≡ turned op W a k }
    {
        match op {
            Rotate::Rol => Self::turned_left(a, k),
            Rotate::Ror => Self::turned_left(a, (W - k) % W),
        }
    }

    #[tactic(auto, using(word_arith::proofs::TurnLemmas::turn_left_below))]
    fn turned_left(a: u64, k: u32) -> u64
        requires width { IsWidth W }
        requires a_fits { a < 2 ^ W }
        requires k_fits { k < W }
        ensures value { result ≡ turn_left W a k }
        ensures fits { result < 2 ^ W }
    {
        let back = (u128::from(a) >> (W - k)) as u64;
        Self::shifted_left(a, k) + back
    }

    fn turn_carry(op: Rotate, value: u64) -> bool
        requires { IsWidth W }
        ensures { result ≡ turn_carry op W value }
    {
        match op {
            Rotate::Rol => value % 2 == 1,
            Rotate::Ror => Self::top_bit(value),
        }
    }

    fn turn_overflow(op: Rotate, value: u64) -> bool
        requires { IsWidth W }
        ensures { result ≡ turn_overflow op W value }
    {
        let other = match op {
            Rotate::Rol => value % 2 == 1,
            Rotate::Ror => (value >> (W - 2)) % 2 == 1,
        };
        Self::top_bit(value) != other
    }

    fn turn_flags(n: u32, new: Flags, old: Flags) -> Flags
        ensures { result ≡ settled (turn_effects n) new old }
    {
        if n == 0 {
            old
        } else {
            Flags {
                cf: new.cf,
                of: n == 1 && new.of,
                ..old
            }
        }
    }
}
