ghost use Rattle.std.specs.Prelude.{◌≡◌, ℕ, ◌+◌, ◌*◌, ◌^◌, ◌<◌, ◌*ℤ◌, neg_ℤ, pos, ◌≤ℤ◌};
ghost use Rattle.word_arith.specs.Width.{IsWidth};
ghost use Rattle.word_arith.specs.Signed.{signed, low_bits, extended};
ghost use Rattle.alu_width.specs.Products.{double_product, product};
ghost use Rattle.alu_width.specs.Overs.{ProductsOver};

use crate::operations::Product;
use crate::words::Alu;

impl<const W: u32> Alu<W> {
    /// MUL (without sign) and IMUL (with sign): the double product and whether it is more than its low half.
    #[tactic(auto, unfolding(crate::specs::Products::product))]
    pub fn mul(signed: bool, a: u64, b: u64) -> Product
        requires width { IsWidth W }
        requires a_fits { a < 2 ^ W }
        requires b_fits { b < 2 ^ W }
        ensures { result ≡ product signed W a b }
    {
        let whole = Self::double_product(signed, a, b);
        let low = (whole % Self::modulus()) as u64;
        let high = (whole >> W) as u64;
        let over = whole != Self::doubled(signed, low);
        Product { low, high, over }
    }

    fn double_product(signed: bool, a: u64, b: u64) -> u128
        requires width { IsWidth W }
        requires a_fits { a < 2 ^ W }
        requires b_fits { b < 2 ^ W }
        ensures value { result ≡ double_product signed W a b }
        ensures fits { result < 2 ^ (2 * W) }
    {
        if signed {
            Self::double_bits(Self::exact_product(a, b))
        } else {
            u128::from(a) * u128::from(b)
        }
    }

    fn exact_product(a: u64, b: u64) -> i128
        requires width { IsWidth W }
        requires a_fits { a < 2 ^ W }
        requires b_fits { b < 2 ^ W }
        ensures { result ≡ signed W a *ℤ signed W b }
    {
        Self::signed(a) * Self::signed(b)
    }

    fn doubled(signed: bool, a: u64) -> u128
        requires width { IsWidth W }
        requires a_fits { a < 2 ^ W }
        ensures { result ≡ extended signed (2 * W) W a }
    {
        if signed {
            Self::double_bits(Self::signed(a))
        } else {
            u128::from(a)
        }
    }

    // the 2 * W low bits
    #[tactic(auto, using(crate::proofs::WordLemmas::low_bits_by_mask))]
    fn double_bits(z: i128) -> u128
        requires { IsWidth W }
        ensures value { result ≡ low_bits (2 * W) z }
        ensures fits { result < 2 ^ (2 * W) }
    {
        z.cast_unsigned() & Self::double_mask()
    }

    pub(crate) fn double_mask() -> u128
        requires { IsWidth W }
        ensures { result + 1 ≡ 2 ^ (2 * W) }
    {
        u128::MAX >> (128 - 2 * W)
    }
}

/// The law of products: `over` says that the product does not fit W bits, without sign for MUL and with sign for
/// IMUL. It computes nothing.
pub fn products_over()
    ensures { ProductsOver }
{}
