ghost use Rattle.std.specs.Prelude.{◌≡◌, ◌-◌, ◌^◌, ◌≤◌};
ghost use Rattle.x64_decode.specs.Bytes.{eight_bytes, extend, four_bytes, signed_byte, signed_long, two_bytes};
ghost use Rattle.x64_syntax.specs.Operands.{bits};
ghost use Rattle.x64_syntax.specs.declared.operand.Width.TheVariants as width;

use crate::bytes::{byte_or, bytes_from};
use x64_syntax::Width;

/// The number of the first two bytes, the least first.
#[tactic(auto, unfolding(crate::specs::Bytes::two_bytes))]
pub fn two_bytes(bytes: &[u8]) -> u16
    ensures { result ≡ two_bytes bytes.now }
{
    u16::from(byte_or(bytes, 0, 0)) + 0x100 * u16::from(byte_or(bytes, 1, 0))
}

/// The number of the first four bytes, the least first.
#[tactic(auto, unfolding(crate::specs::Bytes::four_bytes))]
pub fn four_bytes(bytes: &[u8]) -> u32
    ensures { result ≡ four_bytes bytes.now }
{
    u32::from(two_bytes(bytes)) + 0x1_0000 * u32::from(two_bytes(bytes_from(bytes, 2)))
}

/// The number of the first eight bytes, the least first.
#[tactic(auto, unfolding(crate::specs::Bytes::eight_bytes))]
pub fn eight_bytes(bytes: &[u8]) -> u64
    ensures { result ≡ eight_bytes bytes.now }
{
    u64::from(four_bytes(bytes)) + 0x1_0000_0000 * u64::from(four_bytes(bytes_from(bytes, 4)))
}

/// 8 bits as a number with sign.
#[tactic(auto, unfolding(crate::specs::Bytes::signed_byte))]
pub fn signed_byte(value: u8) -> i64
    ensures { result ≡ signed_byte value }
{
    if value < 0x80 {
        i64::from(value)
    } else {
        i64::from(value) - 0x100
    }
}

/// 32 bits as a number with sign.
#[tactic(auto, unfolding(crate::specs::Bytes::signed_long))]
pub fn signed_long(value: u32) -> i64
    ensures { result ≡ signed_long value }
{
    if value < 0x8000_0000 {
        i64::from(value)
    } else {
        i64::from(value) - 0x1_0000_0000
    }
}

/// 8 bits, sign-extended to a width.
pub fn extend_byte(value: u8, to: Width) -> u64
    ensures { result ≡ extend width.Byte to value }
{
    if value < 0x80 {
        u64::from(value)
    } else {
        u64::from(value) + above_byte(to)
    }
}

/// 32 bits, sign-extended to a width.
pub fn extend_long(value: u32, to: Width) -> u64
    ensures { result ≡ extend width.Long to value }
{
    if value < 0x8000_0000 {
        u64::from(value)
    } else {
        u64::from(value) + above_long(to)
    }
}

fn above_byte(to: Width) -> u64
    ensures value { result ≡ 2 ^ bits to - 2 ^ 8 }
    ensures fits { result ≤ 2 ^ 64 - 2 ^ 8 }
{
    match to {
        Width::Byte => 0,
        Width::Word => 0xFF00,
        Width::Long => 0xFFFF_FF00,
        Width::Quad => 0xFFFF_FFFF_FFFF_FF00,
    }
}

fn above_long(to: Width) -> u64
    ensures value { result ≡ 2 ^ bits to - 2 ^ 32 }
    ensures fits { result ≤ 2 ^ 64 - 2 ^ 32 }
{
    match to {
        Width::Byte | Width::Word | Width::Long => 0,
        Width::Quad => 0xFFFF_FFFF_0000_0000,
    }
}
