ghost use Rattle.std.specs.Prelude.{◌≡◌, ℕ, ◌+◌, ◌-◌, ◌*◌, ◌%◌, ◌^◌, ◌<◌};
ghost use Rattle.word_arith.specs.Width.{IsWidth};
ghost use Rattle.alu_width.specs.Masked.{masked};
ghost use Rattle.alu_width.specs.Effects.{settled, shift_effects};
ghost use Rattle.alu_width.specs.Shifts.{shifted, last_out, shift_overflow, shift_outcome};

use crate::flags::{Flags, Outcome};
use crate::operations::Shift;
use crate::words::Alu;

impl<const W: u32> Alu<W> {
    /// SHL, SHR and SAR by a count, which is masked to 6 bits at W = 64 and else to 5. A flag that the count
    /// leaves undefined is cleared; at the masked count 0 all flags stay as they were.
    #[tactic(auto, unfolding(crate::specs::Shifts::shift_outcome))]
    pub fn shift(op: Shift, a: u64, count: u8, old: Flags) -> Outcome
        requires width { IsWidth W }
        requires a_fits { a < 2 ^ W }
        ensures { result ≡ shift_outcome op W a count old }
    {
        let n = Self::masked(count);
        let value = Self::shifted(op, a, n);
        let new = Flags {
            cf: Self::last_out(op, a, n),
            zf: value == 0,
            sf: Self::top_bit(value),
            of: Self::shift_overflow(op, a),
        };
        Outcome {
            value,
            flags: Self::shift_flags(op, n, new, old),
        }
    }

    pub(crate) fn masked(count: u8) -> u32
        requires width { IsWidth W }
        ensures value { result ≡ masked W count }
        ensures fits { result < 64 }
    {
        u32::from(count) % (if W == 64 { 64 } else { 32 })
    }

    fn shifted(op: Shift, a: u64, n: u32) -> u64
        requires width { IsWidth W }
        requires a_fits { a < 2 ^ W }
        requires n_fits { n < 64 }
        ensures value { result ≡ shifted op W a n }
        ensures fits { result < 2 ^ W }
    {
        match op {
            Shift::Shl => Self::shifted_left(a, n),
            Shift::Shr => a >> n,
            Shift::Sar => Self::low_bits(Self::signed(a) >> n),
        }
    }

    pub(crate) fn shifted_left(a: u64, n: u32) -> u64
        requires width { IsWidth W }
        requires a_fits { a < 2 ^ W }
        requires n_fits { n < 64 }
        ensures value { result ≡ a * 2 ^ n % 2 ^ W }
        ensures fits { result < 2 ^ W }
    {
        ((u128::from(a) << n) % Self::modulus()) as u64
    }

    fn last_out(op: Shift, a: u64, n: u32) -> bool
        requires width { IsWidth W }
        requires a_fits { a < 2 ^ W }
        requires n_fits { n < 64 }
        ensures { result ≡ last_out op W a n }
    {
        let before = Self::shifted(op, a, n.saturating_sub(1));
        match op {
            Shift::Shl => Self::top_bit(before),
            Shift::Shr | Shift::Sar => before % 2 == 1,
        }
    }

    fn shift_overflow(op: Shift, a: u64) -> bool
        requires width { IsWidth W }
        requires a_fits { a < 2 ^ W }
        ensures { result ≡ shift_overflow op W a }
    {
        match op {
            Shift::Shl => Self::top_bit(Self::shifted_left(a, 1)) != Self::last_out(op, a, 1),
            Shift::Shr => Self::top_bit(a),
            Shift::Sar => false,
        }
    }

    fn shift_flags(op: Shift, n: u32, new: Flags, old: Flags) -> Flags
        ensures { result ≡ settled (shift_effects op W n) new old }
    {
        if n == 0 {
            old
        } else if n == 1 {
            new
        } else {
            let carry_defined = op == Shift::Sar || n < W;
            Flags {
                cf: carry_defined && new.cf,
                of: false,
                ..new
            }
        }
    }
}
