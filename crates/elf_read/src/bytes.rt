ghost use Rattle.std.specs.Prelude.{◌≡◌, ◌+◌, ◌≤◌, ◌<◌, ◌↔◌, ℕ, ◌≢◌, length, drop, take, IsTrue, MatchBool};
ghost use Rattle.ev_graph.specs.Memory.{has_flag};
ghost use Rattle.elf_read.specs.Bytes.{number_at, range_at, PassesEnd};

use byteorder::{ByteOrder, LittleEndian};

/// The byte at an offset.
#[tactic(auto, unfolding(crate::specs::Bytes::number_at))]
pub fn byte_at(bytes: &[u8], offset: usize) -> u8
    requires { offset < length bytes.now }
    ensures { result ≡ number_at bytes.now offset 1 }
{
    bytes[offset]
}

/// The number in two bytes at an offset.
#[tactic(auto, unfolding(crate::specs::Bytes::number_at))]
pub fn half_at(bytes: &[u8], offset: usize) -> u16
    requires { offset + 2 ≤ length bytes.now }
    ensures { result ≡ number_at bytes.now offset 2 }
{
    LittleEndian::read_u16(&bytes[offset..])
}

/// The number in four bytes at an offset.
#[tactic(auto, unfolding(crate::specs::Bytes::number_at))]
pub fn word_at(bytes: &[u8], offset: usize) -> u32
    requires { offset + 4 ≤ length bytes.now }
    ensures { result ≡ number_at bytes.now offset 4 }
{
    LittleEndian::read_u32(&bytes[offset..])
}

/// The number in eight bytes at an offset.
#[tactic(auto, unfolding(crate::specs::Bytes::number_at))]
pub fn xword_at(bytes: &[u8], offset: usize) -> u64
    requires { offset + 8 ≤ length bytes.now }
    ensures { result ≡ number_at bytes.now offset 8 }
{
    LittleEndian::read_u64(&bytes[offset..])
}

/// Whether a range has a byte past the end; an empty one has none.
pub fn passes_end(bytes: &[u8], offset: u64, size: u64) -> bool
    ensures { IsTrue result ↔ PassesEnd bytes.now offset size }
{
    let length = bytes.len() as u64;
    size != 0 && (length < offset || length - offset < size)
}

/// The bytes from an offset on; none past the end.
fn bytes_from(bytes: &[u8], offset: u64) -> &[u8]
    ensures { result.now ≡ drop offset bytes.now }
{
    if offset < bytes.len() as u64 {
        &bytes[offset as usize..]
    } else {
        &[]
    }
}

/// The first bytes, or all where there are fewer.
fn bytes_to(bytes: &[u8], size: u64) -> &[u8]
    ensures { result.now ≡ take size bytes.now }
{
    if size < bytes.len() as u64 {
        &bytes[..size as usize]
    } else {
        bytes
    }
}

/// A range of bytes, as far as it is there.
pub fn range_at(bytes: &[u8], offset: u64, size: u64) -> &[u8]
    ensures { result.now ≡ range_at bytes.now offset size }
{
    bytes_to(bytes_from(bytes, offset), size)
}

/// Whether a flag, a power of two, is among the flags.
pub fn has_flag(flags: u64, flag: u64) -> bool
    requires { 0 < flag }
    ensures { result ≡ has_flag flags flag }
{
    flags / flag % 2 == 1
}

/// Whether two runs of bytes are the same.
pub fn is_same(a: &[u8], b: &[u8]) -> bool
    ensures { MatchBool result (a.now ≡ b.now) (a.now ≢ b.now) }
{
    a == b
}
