ghost use Rattle.std.specs.Prelude.{◌≡◌, ◌+◌, ◌-◌, ◌≤◌, ◌<◌, ◌↔◌, ℕ, min, drop, take, slice_index, IsTrue, IfSome, IfNone, OnSome, [], length};
ghost use Rattle.ev_graph.specs.Memory.{has_flag};
ghost use Rattle.elf_read.specs.Elf.{segment_part, parts_of};
ghost use Rattle.code_at.specs.Code.{code_from, memory_bytes, IsInCode};
ghost use Rattle.code_at.specs.Window.{shown};

use elf_read::{Elf, Segment};

/// The most bytes that an instruction has.
const LIMIT: usize = 15;

/// The first bytes of code from an address on: as many of `bytes` as `count` says, 15 at most.
#[derive(Clone, Copy)]
pub struct Window {
    pub bytes: [u8; LIMIT],
    pub count: usize,
}

impl Window {
    /// The bytes that are there.
    pub fn as_slice(&self) -> &[u8]
        requires { self.now.count ≤ 15 }
        ensures { result.now ≡ shown self.now }
    {
        &self.bytes[..self.count]
    }
}

/// Whether the address lies in the segment, and the segment may be executed.
fn is_code(segment: &Segment, address: u64) -> bool
    ensures executable { IsTrue result ↔ (IsTrue (has_flag segment.now.flags 1) × (segment.now.address ≤ address) × (address < segment.now.address + segment.now.size)) }
{
    segment.flags % 2 == 1 && segment.address <= address && address - segment.address < segment.size
}

/// The segment that may be executed and in which the address lies, the first where there are several.
fn code_segment(elf: &Elf, address: u64) -> Option<&Segment>
    ensures some { IfSome result (λ segment. code_from (parts_of elf.now) address ≡ drop (address - segment.now.address) (memory_bytes (segment_part segment.now))) }
    ensures covered { IfSome result (λ segment. (segment.now.address ≤ address) × (address < segment.now.address + segment.now.size)) }
    ensures none { IfNone result (code_from (parts_of elf.now) address ≡ []) }
{
    for segment in elf.segments.as_slice() {
        if is_code(segment, address) {
            return Some(segment);
        }
    }
    None
}

/// The byte of memory at an offset of a segment: a byte of the file, or a zero past those.
fn byte_at(segment: &Segment, offset: u128) -> u8
    ensures { result ≡ slice_index segment.now.bytes offset }
{
    let bytes = segment.bytes.as_slice();
    if offset < bytes.len() as u128 {
        bytes[offset as usize]
    } else {
        0
    }
}

/// The window from an offset of a segment on.
fn window_in(segment: &Segment, offset: u64) -> Window
    requires { offset < segment.now.size }
    ensures shown { shown result ≡ take 15 (drop offset (memory_bytes (segment_part segment.now))) }
    ensures count { result.count ≤ 15 }
{
    let mut bytes = [0; LIMIT];
    for k in 0..LIMIT {
        bytes[k] = byte_at(segment, u128::from(offset) + k as u128);
    }
    let count = (segment.size - offset).min(LIMIT as u64) as usize;
    Window { bytes, count }
}

/// The window from an address on, to the end of the executable segment in which it lies; none where it lies in none.
pub fn window_at(elf: &Elf, address: u64) -> Option<Window>
    ensures shown { IfSome result (λ window. shown window ≡ take 15 (code_from (parts_of elf.now) address)) }
    ensures count { IfSome result (λ window. window.count ≤ 15) }
    ensures inside { OnSome result (IsInCode (parts_of elf.now) address) }
    ensures none { IfNone result (code_from (parts_of elf.now) address ≡ []) }
    ensures outside { IfNone result (IsInCode (parts_of elf.now) address → ⊥) }
{
    match code_segment(elf, address) {
        Some(segment) => Some(window_in(segment, address - segment.address)),
        None => None,
    }
}
