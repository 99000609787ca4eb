ghost use Rattle.std.specs.Prelude.{◌≡◌, ◌+◌, ◌<◌, ◌≤◌, ◌^◌};
ghost use Rattle.x64_decode.specs.Operands.{base_of, displacement, displacement_size, has_modrm, has_sib, immediate_size, index_of, is_by_modrm, is_byte, is_memory, is_rip, lacks_base, low_bits, memory_of, modrm_size, operand_size, place_size, register, rest_size, rm_operand, scale_of, sib_size, byte_count, full_size};

use crate::bytes::{byte_or, bytes_from};
use crate::numbers::{four_bytes, signed_byte, signed_long};
use crate::row::{Code, Front, Place, Row, Size};
use x64_syntax::{Mem, Operand, Reg, Width};

#[tactic(auto, unfolding(crate::specs::Operands::is_memory))]
pub fn is_memory(modrm: u8) -> bool
    ensures { result ≡ is_memory modrm }
{
    modrm < 0xC0
}

#[tactic(auto, unfolding(crate::specs::Operands::has_sib))]
fn has_sib(modrm: u8) -> bool
    ensures { result ≡ has_sib modrm }
{
    is_memory(modrm) && modrm % 8 == 4
}

#[tactic(auto, unfolding(crate::specs::Operands::is_rip))]
fn is_rip(modrm: u8) -> bool
    ensures { result ≡ is_rip modrm }
{
    modrm / 64 == 0 && modrm % 8 == 5
}

#[tactic(auto, unfolding(crate::specs::Operands::lacks_base))]
fn lacks_base(modrm: u8, sib: u8) -> bool
    ensures { result ≡ lacks_base modrm sib }
{
    modrm / 64 == 0 && sib % 8 == 5
}

#[tactic(auto, unfolding(crate::specs::Operands::sib_size))]
fn sib_size(modrm: u8) -> usize
    ensures value { result ≡ sib_size modrm }
    ensures small { result ≤ 1 }
{
    if has_sib(modrm) { 1 } else { 0 }
}

#[tactic(auto, unfolding(crate::specs::Operands::displacement_size))]
fn displacement_size(modrm: u8, sib: u8) -> usize
    ensures value { result ≡ displacement_size modrm sib }
    ensures small { result ≤ 4 }
{
    if modrm / 64 == 1 {
        1
    } else if modrm / 64 == 2 || is_rip(modrm) || (has_sib(modrm) && lacks_base(modrm, sib)) {
        4
    } else {
        0
    }
}

#[tactic(auto, unfolding(crate::specs::Operands::modrm_size))]
fn modrm_size(rest: &[u8]) -> usize
    ensures value { result ≡ modrm_size rest.now }
    ensures small { result ≤ 6 }
{
    let modrm = byte_or(rest, 0, 0);
    1 + sib_size(modrm) + displacement_size(modrm, byte_or(rest, 1, 0))
}

#[tactic(auto, unfolding(crate::specs::Operands::displacement))]
fn displacement(count: usize, bytes: &[u8]) -> i64
    ensures { result ≡ displacement count bytes.now }
{
    match count {
        1 => signed_byte(byte_or(bytes, 0, 0)),
        4 => signed_long(four_bytes(bytes)),
        _ => 0,
    }
}

fn byte_count(width: Width) -> usize
    ensures value { result ≡ byte_count width }
    ensures small { result ≤ 8 }
{
    match width {
        Width::Byte => 1,
        Width::Word => 2,
        Width::Long => 4,
        Width::Quad => 8,
    }
}

fn full_size(width: Width) -> usize
    ensures value { result ≡ full_size width }
    ensures small { result ≤ 4 }
{
    match width {
        Width::Word => 2,
        Width::Byte | Width::Long | Width::Quad => 4,
    }
}

impl Place {
    /// Whether ModRM names the operand.
    fn is_by_modrm(self) -> bool
        ensures { result ≡ is_by_modrm self }
    {
        matches!(self, Place::Rm(_) | Place::Memory(_) | Place::Reg(_))
    }

    /// The bytes of an immediate.
    fn size(self, width: Width) -> usize
        ensures value { result ≡ place_size width self }
        ensures small { result ≤ 8 }
    {
        match self {
            Place::Short | Place::Unsigned => 1,
            Place::Full => full_size(width),
            Place::Whole => byte_count(width),
            Place::Absent
            | Place::Rm(_)
            | Place::Memory(_)
            | Place::Reg(_)
            | Place::Low(_)
            | Place::Accumulator(_)
            | Place::Count
            | Place::One => 0,
        }
    }
}

impl Row {
    /// Whether the code is followed by ModRM.
    #[tactic(auto, unfolding(crate::specs::Operands::has_modrm))]
    pub fn has_modrm(&self) -> bool
        ensures { result ≡ has_modrm self.now }
    {
        self.to.is_by_modrm() || self.from.is_by_modrm() || self.digit.is_some()
    }

    /// The bytes of ModRM, SIB and displacement, at most 6.
    #[tactic(auto, unfolding(crate::specs::Operands::operand_size))]
    pub fn operand_size(&self, rest: &[u8]) -> usize
        ensures value { result ≡ operand_size self.now rest.now }
        ensures small { result ≤ 6 }
    {
        if self.has_modrm() {
            modrm_size(rest)
        } else {
            0
        }
    }

    #[tactic(auto, unfolding(crate::specs::Operands::immediate_size))]
    fn immediate_size(&self, front: &Front) -> usize
        ensures value { result ≡ immediate_size front.now self.now }
        ensures small { result ≤ 24 }
    {
        let width = front.width_of(self.size);
        self.to.size(width) + self.from.size(width) + self.by.size(width)
    }

    /// The bytes after the code: exactly so many where that many are there, and else at least so many.
    #[tactic(auto, unfolding(crate::specs::Operands::rest_size))]
    pub fn rest_size(&self, front: &Front, rest: &[u8]) -> usize
        ensures value { result ≡ rest_size front.now self.now rest.now }
        ensures small { result ≤ 30 }
    {
        self.operand_size(rest) + self.immediate_size(front)
    }
}

impl Code {
    /// The low three bits of the last byte.
    pub fn low_bits(self) -> u8
        ensures value { result ≡ low_bits self }
        ensures small { result < 8 }
    {
        match self {
            Code::One(last)
            | Code::Two(_, last)
            | Code::Three(_, _, last)
            | Code::Four(_, _, _, last) => last % 8,
        }
    }
}

impl Front {
    /// The register of this number; without REX the 8-bit registers 4 to 7 are high bytes.
    #[tactic(auto, unfolding(crate::specs::Operands::register))]
    pub fn register(&self, size: Size, number: u8) -> Reg
        ensures { result ≡ register self.now size number }
    {
        if is_byte(size) && self.rex.is_none() && number >= 4 {
            Reg {
                number: number - 4,
                high: true,
            }
        } else {
            Reg {
                number,
                high: false,
            }
        }
    }

    #[tactic(auto, unfolding(crate::specs::Operands::index_of))]
    fn index_of(&self, sib: u8) -> Option<u8>
        ensures { result ≡ index_of self.now sib }
    {
        match sib / 8 % 8 + 8 * self.rex_bit(Front::X) {
            4 => None,
            number => Some(number),
        }
    }

    #[tactic(auto, unfolding(crate::specs::Operands::scale_of))]
    fn scale_of(&self, sib: u8) -> u8
        ensures { result ≡ scale_of self.now sib }
    {
        if self.index_of(sib).is_some() {
            power_of_two(sib / 64)
        } else {
            1
        }
    }

    #[tactic(auto, unfolding(crate::specs::Operands::base_of))]
    fn base_of(&self, modrm: u8, sib: u8) -> Option<u8>
        ensures { result ≡ base_of self.now modrm sib }
    {
        let high = 8 * self.rex_bit(Front::B);
        if has_sib(modrm) {
            if lacks_base(modrm, sib) {
                None
            } else {
                Some(sib % 8 + high)
            }
        } else if is_rip(modrm) {
            None
        } else {
            Some(modrm % 8 + high)
        }
    }

    #[tactic(auto, unfolding(crate::specs::Operands::memory_of))]
    fn memory_of(&self, rest: &[u8]) -> Mem
        ensures { result ≡ memory_of self.now rest.now }
    {
        let modrm = byte_or(rest, 0, 0);
        let sib = byte_or(rest, 1, 0);
        let with_sib = has_sib(modrm);
        Mem {
            base: self.base_of(modrm, sib),
            index: if with_sib { self.index_of(sib) } else { None },
            scale: if with_sib { self.scale_of(sib) } else { 1 },
            offset: displacement(
                displacement_size(modrm, sib),
                bytes_from(rest, 1 + sib_size(modrm)),
            ),
            rip: is_rip(modrm),
        }
    }

    /// The operand that ModRM's r/m field means.
    #[tactic(auto, unfolding(crate::specs::Operands::rm_operand))]
    pub fn rm_operand(&self, size: Size, rest: &[u8]) -> Operand
        ensures { result ≡ rm_operand self.now size rest.now }
    {
        let modrm = byte_or(rest, 0, 0);
        if is_memory(modrm) {
            Operand::Mem(self.memory_of(rest))
        } else {
            Operand::Reg(self.register(size, modrm % 8 + 8 * self.rex_bit(Front::B)))
        }
    }
}

fn is_byte(size: Size) -> bool
    ensures { result ≡ is_byte size }
{
    matches!(size, Size::Byte)
}

fn power_of_two(exponent: u8) -> u8
    requires { exponent < 4 }
    ensures { result ≡ 2 ^ exponent }
{
    match exponent {
        0 => 1,
        1 => 2,
        2 => 4,
        _ => 8,
    }
}
