//! The arithmetic of words of w bits, which stand in the low bits of a `u64`.

ghost use Rattle.std.specs.Prelude.{◌≡◌, ℕ, ◌+◌, ◌-◌, ◌*◌, ◌/◌, ◌%◌, ◌^◌, ◌<◌, ◌≤◌, ◌≢◌, int_div, pos, neg_ℤ, ◌-ℤ◌, ◌*ℤ◌, ◌<ℤ◌, ◌≤ℤ◌};
ghost use Rattle.word_arith.specs.Width.{IsWidth};
ghost use Rattle.word_arith.specs.Bits.{top_bit, insert};
ghost use Rattle.word_arith.specs.Signed.{signed, fits_signed, low_bits, extended};
ghost use Rattle.word_arith.specs.Turns.{turn_left};
ghost use Rattle.word_arith.specs.ArmWords.{bitfield_move, lslv, lsrv, asrv, rorv, madd, msub, umulh, smulh, udiv, sdiv, subs_value};

/// 2 to the power of w.
pub(crate) fn modulus(w: u32) -> u128
    requires { IsWidth w }
    ensures { result ≡ 2 ^ w }
{
    1u128 << w
}

#[tactic(auto, unfolding(word_arith::specs::Bits::top_bit))]
pub(crate) fn top_bit(w: u32, a: u64) -> bool
    requires { IsWidth w }
    ensures { result ≡ top_bit w a }
{
    a >= 1u64 << (w - 1)
}

/// What a word means in two's complement.
#[tactic(auto, unfolding(word_arith::specs::Signed::signed, word_arith::specs::Bits::top_bit))]
pub(crate) fn signed(w: u32, a: u64) -> i128
    requires width { IsWidth w }
    requires a_fits { a < 2 ^ w }
    ensures value { result ≡ signed w a }
    ensures low { neg_ℤ (pos (2 ^ 63)) ≤ℤ result }
    ensures high { result <ℤ pos (2 ^ 63) }
{
    if top_bit(w, a) {
        i128::from(a) - (1i128 << w)
    } else {
        i128::from(a)
    }
}

#[tactic(auto, unfolding(word_arith::specs::Signed::fits_signed))]
pub(crate) fn fits_signed(w: u32, z: i128) -> bool
    requires { IsWidth w }
    ensures { result ≡ fits_signed w z }
{
    let half = 1i128 << (w - 1);
    -half <= z && z < half
}

#[tactic(auto, unfolding(word_arith::specs::Signed::low_bits))]
fn low_bits(w: u32, z: i128) -> u64
    requires { IsWidth w }
    ensures value { result ≡ low_bits w z }
    ensures fits { result < 2 ^ w }
{
    z.rem_euclid(1i128 << w) as u64
}

/// A difference, modulo 2 to the power of w.
pub(crate) fn difference(w: u32, a: u64, b: u64) -> u64
    requires width { IsWidth w }
    requires a_fits { a < 2 ^ w }
    requires b_fits { b < 2 ^ w }
    ensures value { result ≡ subs_value w a b }
    ensures fits { result < 2 ^ w }
{
    let total = u128::from(a) + (modulus(w) - u128::from(b));
    (total % modulus(w)) as u64
}

/// The difference of what two words mean.
pub(crate) fn exact_difference(w: u32, a: u64, b: u64) -> i128
    requires width { IsWidth w }
    requires a_fits { a < 2 ^ w }
    requires b_fits { b < 2 ^ w }
    ensures { result ≡ signed w a -ℤ signed w b }
{
    signed(w, a) - signed(w, b)
}

pub(crate) fn shifted_left(w: u32, n: u64, k: u64) -> u64
    requires width { IsWidth w }
    requires n_fits { n < 2 ^ w }
    ensures value { result ≡ lslv w n k }
    ensures fits { result < 2 ^ w }
{
    shifted(w, n, shift_count(w, k))
}

fn shifted(w: u32, n: u64, k: u32) -> u64
    requires width { IsWidth w }
    requires n_fits { n < 2 ^ w }
    requires k_fits { k < w }
    ensures value { result ≡ n * 2 ^ k % 2 ^ w }
    ensures fits { result < 2 ^ w }
{
    ((u128::from(n) << k) % modulus(w)) as u64
}

pub(crate) fn shifted_right(w: u32, n: u64, k: u64) -> u64
    requires width { IsWidth w }
    requires n_fits { n < 2 ^ w }
    ensures value { result ≡ lsrv w n k }
    ensures fits { result < 2 ^ w }
{
    n >> shift_count(w, k)
}

pub(crate) fn shifted_by_sign(w: u32, n: u64, k: u64) -> u64
    requires width { IsWidth w }
    requires n_fits { n < 2 ^ w }
    ensures value { result ≡ asrv w n k }
    ensures fits { result < 2 ^ w }
{
    low_bits(w, signed(w, n) >> shift_count(w, k))
}

/// A turn to the right.
pub(crate) fn turned_right(w: u32, n: u64, k: u64) -> u64
    requires width { IsWidth w }
    requires n_fits { n < 2 ^ w }
    ensures value { result ≡ rorv w n k }
    ensures fits { result < 2 ^ w }
{
    turned_left(w, n, (w - shift_count(w, k)) % w)
}

#[tactic(auto, using(word_arith::proofs::TurnLemmas::turn_left_below))]
fn turned_left(w: u32, n: u64, k: u32) -> u64
    requires width { IsWidth w }
    requires n_fits { n < 2 ^ w }
    requires k_fits { k < w }
    ensures value { result ≡ turn_left w n k }
    ensures fits { result < 2 ^ w }
{
    let back = (u128::from(n) >> (w - k)) as u64;
    shifted(w, n, k) + back
}

/// A count of a shift, modulo the width.
fn shift_count(w: u32, k: u64) -> u32
    requires width { IsWidth w }
    ensures value { result ≡ k % w }
    ensures fits { result < w }
{
    (k % u64::from(w)) as u32
}

/// A quotient without sign; 0 by 0.
pub(crate) fn quotient(w: u32, a: u64, b: u64) -> u64
    requires width { IsWidth w }
    requires a_fits { a < 2 ^ w }
    ensures value { result ≡ udiv w a b }
    ensures fits { result < 2 ^ w }
{
    if b == 0 { 0 } else { a / b }
}

/// A quotient with sign, rounded towards 0; 0 by 0.
#[tactic(auto, unfolding(word_arith::specs::ArmWords::sdiv))]
pub(crate) fn signed_quotient(w: u32, a: u64, b: u64) -> u64
    requires width { IsWidth w }
    requires a_fits { a < 2 ^ w }
    requires b_fits { b < 2 ^ w }
    ensures value { result ≡ sdiv w a b }
    ensures fits { result < 2 ^ w }
{
    if b == 0 {
        0
    } else {
        low_bits(w, exact_quotient(w, a, b))
    }
}

/// The quotient of what two words mean.
#[tactic(auto, using(word_arith::proofs::SignedLemmas::signed_not_zero))]
fn exact_quotient(w: u32, a: u64, b: u64) -> i128
    requires width { IsWidth w }
    requires a_fits { a < 2 ^ w }
    requires b_fits { b < 2 ^ w }
    requires some { b ≢ 0 }
    ensures { result ≡ int_div (signed w a) (signed w b) }
{
    signed(w, a) / signed(w, b)
}

/// m plus the product of a and b.
pub(crate) fn product_added(w: u32, m: u64, a: u64, b: u64) -> u64
    requires width { IsWidth w }
    requires m_fits { m < 2 ^ w }
    requires a_fits { a < 2 ^ w }
    requires b_fits { b < 2 ^ w }
    ensures value { result ≡ madd w m a b }
    ensures fits { result < 2 ^ w }
{
    let total = u128::from(m) + product(a, b);
    (total % modulus(w)) as u64
}

/// m minus the product of a and b.
pub(crate) fn product_taken(w: u32, m: u64, a: u64, b: u64) -> u64
    requires width { IsWidth w }
    requires m_fits { m < 2 ^ w }
    requires a_fits { a < 2 ^ w }
    requires b_fits { b < 2 ^ w }
    ensures value { result ≡ msub w m a b }
    ensures fits { result < 2 ^ w }
{
    let low = product(a, b) % modulus(w);
    let total = u128::from(m) + (modulus(w) - low);
    (total % modulus(w)) as u64
}

/// The whole product of two words of 64 bits.
fn product(a: u64, b: u64) -> u128
    ensures value { result ≡ a * b }
    ensures small { result ≤ (2 ^ 64 - 1) * (2 ^ 64 - 1) }
{
    u128::from(a) * u128::from(b)
}

/// The upper half of the product of 64 bits, without sign.
pub(crate) fn upper_product(a: u64, b: u64) -> u64
    ensures { result ≡ umulh a b }
{
    (product(a, b) >> 64) as u64
}

/// The upper half of the product of 64 bits, with sign.
#[tactic(auto, unfolding(word_arith::specs::ArmWords::smulh))]
pub(crate) fn signed_upper_product(a: u64, b: u64) -> u64
    ensures { result ≡ smulh a b }
{
    (double_bits(exact_product(a, b)) >> 64) as u64
}

/// The product of what two words of 64 bits mean.
fn exact_product(a: u64, b: u64) -> i128
    ensures { result ≡ signed 64 a *ℤ signed 64 b }
{
    signed(64, a) * signed(64, b)
}

/// The 128 bits of a number.
#[tactic(auto, using(crate::proofs::ArithmeticLemmas::bits_of_128))]
fn double_bits(z: i128) -> u128
    ensures { result ≡ low_bits 128 z }
{
    z.cast_unsigned()
}

/// 2 to the power of k.
fn power(k: u32) -> u128
    requires { k ≤ 64 }
    ensures value { result ≡ 2 ^ k }
    ensures small { result ≤ 2 ^ 64 }
{
    1u128 << k
}

/// The `len` bits of n from bit `low` on, as v bits: by zeros, or by the sign.
fn field_extended(sign: bool, v: u32, low: u32, len: u32, n: u64) -> u64
    requires some { 0 < len }
    requires place { low < 64 }
    requires longer { len ≤ v }
    requires room { v ≤ 64 }
    ensures value { result ≡ extended sign v len (n / 2 ^ low % 2 ^ len) }
    ensures fits { result < 2 ^ v }
{
    let field = u128::from(n >> low) % power(len);
    extended(sign, v, len, field)
}

/// A word of `len` bits as one of v bits: by zeros, or by the sign.
#[tactic(auto, using(crate::proofs::ArithmeticLemmas::extended_is))]
fn extended(sign: bool, v: u32, len: u32, a: u128) -> u64
    requires some { 0 < len }
    requires longer { len ≤ v }
    requires room { v ≤ 64 }
    requires a_fits { a < 2 ^ len }
    ensures value { result ≡ extended sign v len a }
    ensures fits { result < 2 ^ v }
{
    if sign && a >= power(len - 1) {
        (a + (power(v) - power(len))) as u64
    } else {
        a as u64
    }
}

/// The bits from `immr` to `imms` moved to bit 0, or else the `imms + 1` low bits moved to bit w - `immr`; above
/// them zeros, or copies of the top bit.
#[tactic(auto, unfolding(word_arith::specs::ArmWords::bitfield_move))]
pub(crate) fn bits_moved(sign: bool, w: u32, immr: u32, imms: u32, n: u64) -> u64
    requires width { IsWidth w }
    requires immr_fits { immr < w }
    requires imms_fits { imms < w }
    requires n_fits { n < 2 ^ w }
    ensures value { result ≡ bitfield_move sign w immr imms n }
    ensures fits { result < 2 ^ w }
{
    if immr <= imms {
        field_extended(sign, w, immr, imms - immr + 1, n)
    } else {
        let field = field_extended(sign, immr, 0, imms + 1, n);
        field << (w - immr)
    }
}

/// A word with 16 of its bits, from bit `low` on, replaced.
#[tactic(auto, using(word_arith::proofs::FieldLemmas::insert_below))]
pub(crate) fn with_quarter(n: u64, low: u32, value: u16) -> u64
    requires place { low + 16 ≤ 64 }
    ensures { result ≡ insert low 16 n value }
{
    let (low, high) = (power(low), power(low + 16));
    let n = u128::from(n);
    (n / high * high + u128::from(value) * low + n % low) as u64
}
