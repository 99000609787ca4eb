ghost use Rattle.std.specs.Prelude.{◌≡◌, ℕ, ◌+◌, ◌-◌, ◌*◌, ◌^◌, ◌<◌, ◌≤◌, pos, neg_ℤ, ◌+ℤ◌, ◌-ℤ◌, ◌<ℤ◌, ◌≤ℤ◌, nat_le};
ghost use Rattle.word_arith.specs.Width.{IsWidth};
ghost use Rattle.word_arith.specs.Bits.{top_bit};
ghost use Rattle.word_arith.specs.Signed.{signed, fits_signed, low_bits};
ghost use Rattle.alu_width.specs.Sums.{outcome};

use crate::flags::{Flags, Outcome};

/// The arithmetic of operands of W bits, where W is 8, 16, 32 or 64. A word of W bits is a `u64` below 2 ^ W.
pub struct Alu<const W: u32>;

impl<const W: u32> Alu<W> {
    pub(crate) fn modulus() -> u128
        requires { IsWidth W }
        ensures { result ≡ 2 ^ W }
    {
        1u128 << W
    }

    #[tactic(auto, unfolding(word_arith::specs::Bits::top_bit))]
    pub(crate) fn top_bit(a: u64) -> bool
        requires { IsWidth W }
        ensures { result ≡ top_bit W a }
    {
        a >= 1u64 << (W - 1)
    }

    #[tactic(auto, unfolding(word_arith::specs::Signed::signed, word_arith::specs::Bits::top_bit))]
    pub(crate) fn signed(a: u64) -> i128
        requires width { IsWidth W }
        requires a_fits { a < 2 ^ W }
        ensures value { result ≡ signed W a }
        ensures low { neg_ℤ (pos (2 ^ 63)) ≤ℤ result }
        ensures high { result <ℤ pos (2 ^ 63) }
    {
        if Self::top_bit(a) {
            i128::from(a) - (1i128 << W)
        } else {
            i128::from(a)
        }
    }

    #[tactic(auto, unfolding(word_arith::specs::Signed::fits_signed))]
    pub(crate) fn fits_signed(z: i128) -> bool
        requires { IsWidth W }
        ensures { result ≡ fits_signed W z }
    {
        let half = 1i128 << (W - 1);
        -half <= z && z < half
    }

    #[tactic(auto, unfolding(word_arith::specs::Signed::low_bits))]
    pub(crate) fn low_bits(z: i128) -> u64
        requires { IsWidth W }
        ensures value { result ≡ low_bits W z }
        ensures fits { result < 2 ^ W }
    {
        z.rem_euclid(1i128 << W) as u64
    }

    #[tactic(auto, unfolding(crate::specs::Sums::outcome))]
    pub(crate) fn outcome(value: u64, carry: bool, overflow: bool) -> Outcome
        requires { IsWidth W }
        ensures { result ≡ outcome W value carry overflow }
    {
        let flags = Flags {
            cf: carry,
            zf: value == 0,
            sf: Self::top_bit(value),
            of: overflow,
        };
        Outcome { value, flags }
    }
}
