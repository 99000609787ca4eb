ghost use Rattle.std.specs.Prelude.{◌≡◌, ◌+◌, ◌*◌, ◌<◌, ◌≤◌, ◌^◌, ◌↔◌, IsTrue};
ghost use Rattle.elf_read.specs.Elf.{IsProgram, parts_of, segment_part};
ghost use Rattle.code_at.specs.Code.{program_of};
ghost use Rattle.jump_table.specs.Entries.{AreFixed, IsFixedIn, byte_at, bytes_from, entry_at};
ghost use Rattle.jump_table.specs.Pattern.{IsTable};

use byteorder::{ByteOrder, LittleEndian};
use elf_read::{Elf, Segment};
use ev_graph::StartMemory;

/// A jump through a table of addresses (Intel SDM volume 2, JMP): where its instructions begin, its
/// index register, and where its entries stand.
///
/// `first` is the address of the first instruction. `inside` begins with the addresses of the
/// others, `inside_count` of them, and the rest of it is 0; `jump` is the last of them. The `count`
/// entries are numbers of eight bytes from `base` on, and the register `index` chooses one of them.
#[derive(Clone, Copy, Debug, PartialEq, Eq)]
pub struct Table {
    pub first: u64,
    pub jump: u64,
    pub inside: [u64; 3],
    pub inside_count: u8,
    pub index: u8,
    pub base: u64,
    pub count: u32,
}

impl Table {
    /// The entry of this number, counted from 0: where the jump goes when the index register has
    /// it. It takes no memory.
    #[tactic(auto, unfolding(crate::specs::Entries::entry_at))]
    pub fn entry(&self, elf: &Elf, k: u32) -> u64
        requires program { IsProgram (parts_of elf.now) elf.now.threads }
        requires table { IsTable (program_of elf.now) self.now }
        requires index { k < self.now.count }
        ensures { result ≡ entry_at (parts_of elf.now) self.now.base k }
    {
        let address = self.base + 8 * u64::from(k);
        LittleEndian::read_u64(&bytes_at(elf, address))
    }
}

/// Whether `size` bytes from an address on lie in the segment, and it may be read and not written.
fn is_fixed_in(segment: &Segment, address: u64, size: u64) -> bool
    ensures { IsTrue result ↔ IsFixedIn (segment_part segment.now) address size }
{
    segment.flags / 4 % 2 == 1
        && segment.flags / 2 % 2 == 0
        && segment.address <= address
        && u128::from(address) + u128::from(size)
            <= u128::from(segment.address) + u128::from(segment.size)
}

/// Whether `size` bytes from an address on lie in one segment that may be read and not written.
pub(crate) fn is_fixed(elf: &Elf, address: u64, size: u64) -> bool
    ensures { IsTrue result ↔ AreFixed (parts_of elf.now) address size }
{
    for segment in elf.segments.as_slice() {
        if is_fixed_in(segment, address, size) {
            return true;
        }
    }
    false
}

/// The byte of memory at an address, 0 where there is none.
fn byte_at(elf: &Elf, address: u64) -> u8
    ensures { result ≡ byte_at (parts_of elf.now) address }
{
    match elf.start_byte(address) {
        Some(byte) => byte,
        None => 0,
    }
}

/// The eight bytes of memory from an address on.
fn bytes_at(elf: &Elf, address: u64) -> [u8; 8]
    requires { address + 8 ≤ 2 ^ 46 }
    ensures { result ≡ bytes_from (parts_of elf.now) address 8 }
{
    [
        byte_at(elf, address),
        byte_at(elf, address + 1),
        byte_at(elf, address + 2),
        byte_at(elf, address + 3),
        byte_at(elf, address + 4),
        byte_at(elf, address + 5),
        byte_at(elf, address + 6),
        byte_at(elf, address + 7),
    ]
}
