ghost use Rattle.std.specs.Prelude.{◌≡◌, ℕ, ◌+◌, ◌*◌, ◌^◌, ◌<◌, ◌≢◌, pos};
ghost use Rattle.word_arith.specs.Width.{IsWidth};
ghost use Rattle.word_arith.specs.Signed.{signed};
ghost use Rattle.alu_width.specs.Quotients.{plain_quotient, signed_quotient, quotient};

use crate::operations::{DivFault, Quotient};
use crate::words::Alu;

impl<const W: u32> Alu<W> {
    /// DIV (without sign) and IDIV (with sign) of the 2 * W bits `high`, `low` by `by`.
    ///
    /// # Errors
    /// `Zero` where `by` is 0; else `Range` where the quotient does not fit W bits, with or without sign as asked.
    #[tactic(auto, unfolding(crate::specs::Quotients::quotient))]
    pub fn div(signed: bool, high: u64, low: u64, by: u64) -> Result<Quotient, DivFault>
        requires width { IsWidth W }
        requires high_fits { high < 2 ^ W }
        requires low_fits { low < 2 ^ W }
        requires by_fits { by < 2 ^ W }
        ensures { result ≡ quotient signed W high low by }
    {
        let dividend = (u128::from(high) << W) + u128::from(low);
        if by == 0 {
            Err(DivFault::Zero)
        } else if signed {
            Self::signed_quotient(Self::double_signed(dividend), Self::signed(by))
        } else {
            Self::plain_quotient(dividend, by)
        }
    }

    fn plain_quotient(n: u128, d: u64) -> Result<Quotient, DivFault>
        requires width { IsWidth W }
        requires d_fits { d < 2 ^ W }
        requires d_positive { 0 < d }
        ensures { result ≡ plain_quotient W n d }
    {
        let quotient = n / u128::from(d);
        if quotient >= Self::modulus() {
            return Err(DivFault::Range);
        }
        Ok(Quotient {
            quotient: quotient as u64,
            remainder: (n % u128::from(d)) as u64,
        })
    }

    #[tactic(auto, using(crate::proofs::WordLemmas::least_by_minus_one))]
    fn signed_quotient(n: i128, d: i128) -> Result<Quotient, DivFault>
        requires width { IsWidth W }
        requires d_not_zero { d ≢ pos 0 }
        ensures { result ≡ signed_quotient W n d }
    {
        // the one quotient that 128 bits do not hold
        if n == i128::MIN && d == -1 {
            return Err(DivFault::Range);
        }
        let quotient = n / d;
        if !Self::fits_signed(quotient) {
            return Err(DivFault::Range);
        }
        Ok(Quotient {
            quotient: Self::low_bits(quotient),
            remainder: Self::low_bits(n % d),
        })
    }

    // what 2 * W bits mean
    #[tactic(auto, unfolding(word_arith::specs::Signed::signed))]
    fn double_signed(n: u128) -> i128
        requires width { IsWidth W }
        requires n_fits { n < 2 ^ (2 * W) }
        ensures { result ≡ signed (2 * W) n }
    {
        let mask = Self::double_mask();
        if n > mask / 2 {
            -1 - (mask - n) as i128
        } else {
            n as i128
        }
    }
}
