ghost use Rattle.std.specs.Prelude.{◌≡◌, ◌+◌, ◌*◌, ◌<◌, ◌≤◌, ◌↔◌, length, map, None, IsTrue, IfSome, IfNone, slice_index, if◌then◌else◌};
ghost use Rattle.ev_graph.specs.Memory.{cell_in, cells_of, permits, has_flag};
ghost use Rattle.elf_write.specs.Image.{image_part, code_part, image_cells};

use crate::image::{Image, ImageSegment};
use byteorder::{ByteOrder, LittleEndian};
use ev_graph::StartMemory;

/// The flag of a segment that may be written.
const PF_W: u32 = 2;

/// The flag of one that may be read.
const PF_R: u32 = 4;

impl ImageSegment {
    /// Whether an address is one of the segment's.
    fn covers(&self, address: u128) -> bool
        ensures { IsTrue result ↔ ((self.now.address ≤ address) × (address < self.now.address + self.now.size)) }
    {
        let start = u128::from(self.address);
        start <= address && address < start + u128::from(self.size)
    }

    /// The byte at an offset: a byte of the file, or a zero past those.
    fn byte_at(&self, offset: u64) -> u8
        ensures { result ≡ slice_index self.now.bytes offset }
    {
        let bytes = self.bytes.as_slice();
        if offset < bytes.len() as u64 {
            bytes[offset as usize]
        } else {
            0
        }
    }

    /// Whether the segment may be read, or written where `write` is true.
    fn permits(&self, write: bool) -> bool
        ensures { result ≡ (if write then has_flag self.now.flags 2 else has_flag self.now.flags 4) }
    {
        let flag = if write { PF_W } else { PF_R };
        self.flags / flag % 2 == 1
    }
}

impl Image {
    /// The segment that has a byte at an address, the first where there are several.
    fn segment_of(&self, address: u128) -> Option<&ImageSegment>
        ensures none { IfNone result (cells_of (map image_part self.now.segments) address ≡ None) }
        ensures some { IfSome result (λ segment. cells_of (map image_part self.now.segments) address ≡ cell_in (image_part segment.now) address) }
        ensures covered { IfSome result (λ segment. (segment.now.address ≤ address) × (address < segment.now.address + segment.now.size)) }
    {
        for segment in self.segments.as_slice() {
            if segment.covers(address) {
                return Some(segment);
            }
        }
        None
    }

    /// Whether an address is one of the code's.
    fn covers_code(&self, address: u64) -> bool
        ensures { IsTrue result ↔ ((self.now.code_address ≤ address) × (address < self.now.code_address + 4 * length self.now.words)) }
    {
        let start = u128::from(self.code_address);
        let end = start + 4 * self.words.as_slice().len() as u128;
        start <= u128::from(address) && u128::from(address) < end
    }

    /// The code's byte at an offset.
    fn code_byte(&self, offset: u64) -> u8
        requires { offset < 4 * length self.now.words }
        ensures { result ≡ slice_index (code_part self.now.code_address self.now.words).bytes offset }
    {
        let word = self.words.as_slice()[(offset / 4) as usize];
        let mut spelled = [0; 4];
        LittleEndian::write_u32(&mut spelled, word);
        spelled[(offset % 4) as usize]
    }

    /// Whether the byte at an address may be read, or written where `write` is true; the code may be
    /// neither.
    fn permits(&self, address: u128, write: bool) -> bool
        ensures { result ≡ permits write (image_cells self.now address) }
    {
        match self.segment_of(address) {
            Some(segment) => segment.permits(write),
            None => false,
        }
    }
}

impl StartMemory for Image {
    ghost use Rattle.elf_write.specs.Image.{image_cells};

    ghost cells = { image_cells };

    fn start_byte(&self, address: u64) -> Option<u8> {
        if let Some(segment) = self.segment_of(u128::from(address)) {
            return Some(segment.byte_at(address - segment.address));
        }
        if self.covers_code(address) {
            return Some(self.code_byte(address - self.code_address));
        }
        None
    }

    fn allows(&self, address: u64, size: u8, write: bool) -> bool {
        for k in 0..size {
            if !self.permits(u128::from(address) + u128::from(k), write) {
                return false;
            }
        }
        true
    }
}
