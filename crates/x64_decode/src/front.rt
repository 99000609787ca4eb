ghost use Rattle.std.specs.Prelude.{◌≡◌, length, drop, take, ◌<◌, ◌≤◌};
ghost use Rattle.x64_decode.specs.Fronts.{front_of, operand_width, rex_bit, width_of};
ghost use Rattle.x64_decode.specs.Reading.{front_at, prefixes_at, rex_at};

use crate::bytes::{byte_or, bytes_from, bytes_to, has, is_prefix, is_rex};
use crate::row::{Front, Size};
use x64_syntax::Width;

impl Front {
    /// REX.W, the width of 64 bits.
    pub const W: u8 = 8;
    /// REX.R, which extends ModRM's reg field.
    pub const R: u8 = 4;
    /// REX.X, which extends SIB's index.
    pub const X: u8 = 2;
    /// REX.B, which extends ModRM's r/m field, SIB's base, and a register in the opcode.
    pub const B: u8 = 1;

    /// A bit of REX, 0 or 1, by what it is worth.
    pub fn rex_bit(self, worth: u8) -> u8
        requires { 0 < worth }
        ensures value { result ≡ rex_bit worth self.rex }
        ensures small { result < 2 }
    {
        match self.rex {
            None => 0,
            Some(rex) => rex / worth % 2,
        }
    }

    #[tactic(auto, unfolding(crate::specs::Fronts::operand_width))]
    fn operand_width(self) -> Width
        ensures { result ≡ operand_width self }
    {
        if self.rex_bit(Front::W) == 1 {
            Width::Quad
        } else if self.word {
            Width::Word
        } else {
            Width::Long
        }
    }

    /// The width that a size means behind this front.
    pub fn width_of(self, size: Size) -> Width
        ensures { result ≡ width_of self size }
    {
        match size {
            Size::Byte => Width::Byte,
            Size::Word => Width::Word,
            Size::Long => Width::Long,
            Size::Quad => Width::Quad,
            Size::Operand => self.operand_width(),
        }
    }
}

/// The prefixes and REX that stand at the front of the bytes.
#[tactic(auto, unfolding(crate::specs::Fronts::front_of, crate::specs::Reading::front_at))]
pub fn front_at(bytes: &[u8]) -> Front
    ensures value { result ≡ front_at bytes.now }
    ensures within { result.length ≤ length bytes.now }
{
    let count = prefix_count(bytes);
    let prefixes = bytes_to(bytes, count);
    let rex = rex_at(bytes_from(bytes, count));
    let rex_length = if rex.is_some() { 1 } else { 0 };
    Front {
        word: has(0x66, prefixes),
        lock: has(0xF0, prefixes),
        rex,
        length: count + rex_length,
    }
}

/// How many prefixes stand at the front of the bytes.
fn prefix_count(bytes: &[u8]) -> usize
    ensures count { result ≡ length (prefixes_at bytes.now) }
    ensures stands { take result bytes.now ≡ prefixes_at bytes.now }
    ensures within { result ≤ length bytes.now }
{
    let mut count = 0;
    for byte in bytes {
        if !is_prefix(*byte) {
            return count;
        }
        count += 1;
    }
    count
}

fn rex_at(bytes: &[u8]) -> Option<u8>
    ensures { result ≡ rex_at bytes.now }
{
    match bytes {
        [first, ..] if is_rex(*first) => Some(*first),
        _ => None,
    }
}
