ghost use Rattle.std.specs.Prelude.{◌≡◌, ℕ, ◌/◌, ◌<◌, ◌≢◌};
ghost use Rattle.alu_width.specs.Conditions.{condition};
ghost use Rattle.alu_width.specs.Comparisons.{Comparisons};

use crate::flags::Flags;

/// The condition of a code from 0 to 15 other than 10 and 11, which test the parity flag: O, NO, B, AE, E, NE,
/// BE, A, S, NS, then from 12 on L, GE, LE, G.
#[tactic(auto, unfolding(crate::specs::Conditions::condition))]
pub fn cond(code: u8, flags: Flags) -> bool
    requires code_fits { code < 16 }
    requires no_parity { code / 2 ≢ 5 }
    ensures { result ≡ condition code flags }
{
    let less = flags.sf != flags.of;
    let even = match code / 2 {
        0 => flags.of,
        1 => flags.cf,
        2 => flags.zf,
        3 => flags.cf || flags.zf,
        4 => flags.sf,
        6 => less,
        _ => flags.zf || less,
    };
    even != (code % 2 == 1)
}

/// The law of comparisons: after CMP the conditions B, E and BE order the words without sign, and L and LE what
/// they mean. It computes nothing.
pub fn comparisons()
    ensures { Comparisons }
{}
