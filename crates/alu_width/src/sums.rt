ghost use Rattle.std.specs.Prelude.{◌≡◌, ℕ, ◌+◌, ◌-◌, ◌^◌, ◌<◌, pos, ◌+ℤ◌, ◌-ℤ◌, false};
ghost use Rattle.word_arith.specs.Width.{IsWidth};
ghost use Rattle.word_arith.specs.Bits.{bit};
ghost use Rattle.word_arith.specs.Signed.{signed};
ghost use Rattle.alu_width.specs.Sums.{outcome, sum_outcome, difference_outcome, logic_value};

use crate::flags::Outcome;
use crate::operations::Logic;
use crate::words::Alu;

impl<const W: u32> Alu<W> {
    /// ADD.
    pub fn add(a: u64, b: u64) -> Outcome
        requires width { IsWidth W }
        requires a_fits { a < 2 ^ W }
        requires b_fits { b < 2 ^ W }
        ensures { result ≡ sum_outcome W a b 0 }
    {
        Self::sum(a, b, 0)
    }

    /// ADC, with the carry in.
    pub fn adc(a: u64, b: u64, cf: bool) -> Outcome
        requires width { IsWidth W }
        requires a_fits { a < 2 ^ W }
        requires b_fits { b < 2 ^ W }
        ensures { result ≡ sum_outcome W a b (bit cf) }
    {
        Self::sum(a, b, u64::from(cf))
    }

    /// SUB, and CMP by its flags.
    pub fn sub(a: u64, b: u64) -> Outcome
        requires width { IsWidth W }
        requires a_fits { a < 2 ^ W }
        requires b_fits { b < 2 ^ W }
        ensures { result ≡ difference_outcome W a b 0 }
    {
        Self::difference(a, b, 0)
    }

    /// SBB, with the borrow in.
    pub fn sbb(a: u64, b: u64, cf: bool) -> Outcome
        requires width { IsWidth W }
        requires a_fits { a < 2 ^ W }
        requires b_fits { b < 2 ^ W }
        ensures { result ≡ difference_outcome W a b (bit cf) }
    {
        Self::difference(a, b, u64::from(cf))
    }

    /// NEG, which is 0 minus the operand.
    pub fn neg(a: u64) -> Outcome
        requires width { IsWidth W }
        requires a_fits { a < 2 ^ W }
        ensures { result ≡ difference_outcome W 0 a 0 }
    {
        Self::difference(0, a, 0)
    }

    /// AND, OR and XOR, and TEST by the flags of AND. CF and OF are cleared.
    pub fn logic(op: Logic, a: u64, b: u64) -> Outcome
        requires width { IsWidth W }
        requires a_fits { a < 2 ^ W }
        requires b_fits { b < 2 ^ W }
        ensures { result ≡ outcome W (logic_value op a b) false false }
    {
        let value = match op {
            Logic::And => a & b,
            Logic::Or => a | b,
            Logic::Xor => a ^ b,
        };
        Self::outcome(value, false, false)
    }

    #[tactic(auto, unfolding(crate::specs::Sums::sum_outcome))]
    fn sum(a: u64, b: u64, carry: u64) -> Outcome
        requires width { IsWidth W }
        requires a_fits { a < 2 ^ W }
        requires b_fits { b < 2 ^ W }
        requires carry_fits { carry < 2 }
        ensures { result ≡ sum_outcome W a b carry }
    {
        let total = u128::from(a) + u128::from(b) + u128::from(carry);
        let value = (total % Self::modulus()) as u64;
        let exact = Self::exact_sum(a, b, carry);
        Self::outcome(value, total >= Self::modulus(), !Self::fits_signed(exact))
    }

    #[tactic(auto, unfolding(crate::specs::Sums::difference_outcome))]
    fn difference(a: u64, b: u64, borrow: u64) -> Outcome
        requires width { IsWidth W }
        requires a_fits { a < 2 ^ W }
        requires b_fits { b < 2 ^ W }
        requires borrow_fits { borrow < 2 }
        ensures { result ≡ difference_outcome W a b borrow }
    {
        let taken = u128::from(b) + u128::from(borrow);
        let total = u128::from(a) + (Self::modulus() - taken);
        let value = (total % Self::modulus()) as u64;
        let exact = Self::exact_difference(a, b, borrow);
        Self::outcome(value, u128::from(a) < taken, !Self::fits_signed(exact))
    }

    fn exact_sum(a: u64, b: u64, carry: u64) -> i128
        requires width { IsWidth W }
        requires a_fits { a < 2 ^ W }
        requires b_fits { b < 2 ^ W }
        requires carry_fits { carry < 2 }
        ensures { result ≡ signed W a +ℤ signed W b +ℤ pos carry }
    {
        Self::signed(a) + Self::signed(b) + i128::from(carry)
    }

    fn exact_difference(a: u64, b: u64, borrow: u64) -> i128
        requires width { IsWidth W }
        requires a_fits { a < 2 ^ W }
        requires b_fits { b < 2 ^ W }
        requires borrow_fits { borrow < 2 }
        ensures { result ≡ signed W a -ℤ signed W b -ℤ pos borrow }
    {
        Self::signed(a) - Self::signed(b) - i128::from(borrow)
    }
}
