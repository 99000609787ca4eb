ghost use Rattle.std.specs.Prelude.{◌≡◌, ◌+◌, ◌-◌, ◌<◌, ◌≤◌, ◌↔◌, ℕ, map, Option, None, IsTrue, IfSome, IfNone, slice_index, if◌then◌else◌};
ghost use Rattle.std.specs.Option.{option_map};
ghost use Rattle.ev_graph.specs.Memory.{Cell, Allows, cell_in, permits, has_flag};
ghost use Rattle.elf_read.specs.Elf.{segment_part, elf_cells};

use crate::bytes::has_flag;
use ev_graph::{List, StartMemory};

/// The flag of a segment that may be executed.
pub const PF_X: u64 = 1;

/// The flag of one that may be written.
pub const PF_W: u64 = 2;

/// The flag of one that may be read.
pub const PF_R: u64 = 4;

/// A segment of a program (System V gABI, chapter 5): `size` bytes of memory from `address` on, first
/// `bytes` and then zeros.
///
/// The flags are those of its program header, whole: X 1, W 2, R 4.
#[derive(Drop)]
pub struct Segment {
    pub address: u64,
    pub size: u64,
    pub flags: u32,
    pub bytes: List<u8>,
}

/// A program for x86-64: its segments in the order of their program headers, where its threads begin,
/// and where its listed calls are.
#[derive(Drop)]
pub struct Elf {
    pub segments: List<Segment>,
    pub threads: List<u64>,
    pub input: Option<u64>,
    pub output: Option<u64>,
}

impl Segment {
    /// Whether an address is one of the segment's.
    fn covers(&self, address: u128) -> bool
        ensures { IsTrue result ↔ ((self.now.address ≤ address) × (address < self.now.address + self.now.size)) }
    {
        let start = u128::from(self.address);
        start <= address && address < start + u128::from(self.size)
    }

    /// The byte at an offset: a byte of the file, or a zero past those.
    fn byte_at(&self, offset: u64) -> u8
        ensures { result ≡ slice_index self.now.bytes offset }
    {
        let bytes = self.bytes.as_slice();
        if offset < bytes.len() as u64 {
            bytes[offset as usize]
        } else {
            0
        }
    }

    /// Whether the segment may be read, or written where `write` is true.
    fn permits(&self, write: bool) -> bool
        ensures { result ≡ (if write then has_flag self.now.flags 2 else has_flag self.now.flags 4) }
    {
        has_flag(u64::from(self.flags), if write { PF_W } else { PF_R })
    }
}

impl Elf {
    /// The segment that has a byte at an address, the first where there are several.
    fn segment_of(&self, address: u128) -> Option<&Segment>
        ensures none { IfNone result (elf_cells self.now address ≡ None) }
        ensures some { IfSome result (λ segment. elf_cells self.now address ≡ cell_in (segment_part segment.now) address) }
        ensures covered { IfSome result (λ segment. (segment.now.address ≤ address) × (address < segment.now.address + segment.now.size)) }
    {
        for segment in self.segments.as_slice() {
            if segment.covers(address) {
                return Some(segment);
            }
        }
        None
    }

    /// Whether the byte at an address may be read, or written where `write` is true.
    fn permits(&self, address: u128, write: bool) -> bool
        ensures { result ≡ permits write (elf_cells self.now address) }
    {
        match self.segment_of(address) {
            Some(segment) => segment.permits(write),
            None => false,
        }
    }
}

impl StartMemory for Elf {
    ghost use Rattle.elf_read.specs.Elf.{elf_cells};

    ghost cells = { elf_cells };

    fn start_byte(&self, address: u64) -> Option<u8> {
        let segment = self.segment_of(u128::from(address))?;
        Some(segment.byte_at(address - segment.address))
    }

    fn allows(&self, address: u64, size: u8, write: bool) -> bool {
        for k in 0..size {
            if !self.permits(u128::from(address) + u128::from(k), write) {
                return false;
            }
        }
        true
    }
}
