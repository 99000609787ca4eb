ghost use Rattle.std.specs.Prelude.{◌≡◌, ◌<◌, drop, take, slice_index_or};
ghost use Rattle.x64_decode.specs.Bytes.{has, is_prefix, is_rex};

/// The byte at an index, or the default past the end.
pub fn byte_or(bytes: &[u8], index: usize, default: u8) -> u8
    ensures { result ≡ slice_index_or bytes.now index default }
{
    if index < bytes.len() {
        bytes[index]
    } else {
        default
    }
}

/// The bytes from an index on: none past the end.
pub fn bytes_from(bytes: &[u8], index: usize) -> &[u8]
    ensures { result.now ≡ drop index bytes.now }
{
    if index < bytes.len() {
        &bytes[index..]
    } else {
        &bytes[bytes.len()..]
    }
}

/// The bytes up to an index: all where that is past the end.
pub fn bytes_to(bytes: &[u8], index: usize) -> &[u8]
    ensures { result.now ≡ take index bytes.now }
{
    if index < bytes.len() {
        &bytes[..index]
    } else {
        bytes
    }
}

/// Whether a byte is among these.
#[tactic(auto, unfolding(crate::specs::Bytes::has))]
pub fn has(byte: u8, bytes: &[u8]) -> bool
    ensures { result ≡ has byte bytes.now }
{
    bytes.iter().any(|other| *other == byte)
}

/// Whether a byte is a prefix.
#[tactic(auto, unfolding(crate::specs::Bytes::is_prefix))]
pub fn is_prefix(byte: u8) -> bool
    ensures { result ≡ is_prefix byte }
{
    byte == 0x66 || byte == 0xF0 || byte == 0x2E || byte == 0x36 || byte == 0x3E || byte == 0x26
}

/// Whether a byte is REX.
#[tactic(auto, unfolding(crate::specs::Bytes::is_rex))]
pub fn is_rex(byte: u8) -> bool
    ensures { result ≡ is_rex byte }
{
    byte / 16 == 4
}
