ghost use Rattle.std.specs.Prelude.{◌≡◌, ◌≢◌, ◌≤◌, ◌<◌, ◌+◌, ◌*◌, ◌^◌, ◌⊎◌, ◌↔◌, ℕ, map, length, IsTrue, IfOk, OnOk};
ghost use Rattle.elf_read.specs.Checked.{HasProgramTable};
ghost use Rattle.elf_read.specs.Elf.{segment_part};
ghost use Rattle.elf_read.specs.ElfFile.{segment_at, segments_of};
ghost use Rattle.elf_read.specs.Fields.{e_phnum, program_header_at};
ghost use Rattle.elf_read.specs.FirstFault.{Looks};
ghost use Rattle.elf_read.specs.FileFaults.{Holds, IsBadSegment, SharesByte, SharesWith, memory_size};

use crate::bytes::{has_flag, passes_end, range_at};
use crate::elf::{PF_W, PF_X, Segment};
use crate::fault::FileFault;
use crate::program_table::{PT_LOAD, ProgramHeader, program_count, program_header};
use ev_graph::List;
use std::alloc::{AllocError, Global};

/// The highest end of a segment.
const HIGHEST_END: u64 = 0x4000_0000_0000;

/// The most bytes of memory that the segments of a file may have.
const MOST_MEMORY: u64 = 268_435_456;

/// Whether a segment is bad by itself: file bytes past the end, more bytes in the file than in memory,
/// an end that is too high, or both W and X.
fn is_bad_segment(bytes: &[u8], number: usize) -> bool
    requires table { HasProgramTable bytes.now }
    requires within { number < e_phnum bytes.now }
    ensures { IsTrue result ↔ IsBadSegment bytes.now (program_header_at bytes.now number) }
{
    let header = program_header(bytes, number);
    if passes_end(bytes, header.offset, header.file_size) {
        return true;
    }
    if header.file_size > header.size {
        return true;
    }
    if ends_too_high(header.address, header.size) {
        return true;
    }
    let flags = u64::from(header.flags);
    has_flag(flags, PF_W) && has_flag(flags, PF_X)
}

/// Whether the end of a segment is above the highest.
fn ends_too_high(address: u64, size: u64) -> bool
    ensures { IsTrue result ↔ (2 ^ 46 < address + size) }
{
    HIGHEST_END < address || HIGHEST_END - address < size
}

/// Whether two segments have a byte of memory in common.
fn overlap(a: ProgramHeader, b: ProgramHeader) -> bool
    ensures { IsTrue result ↔ ((n : ℕ) × ((a.address ≤ n) × (n < a.address + a.size)) × ((b.address ≤ n) × (n < b.address + b.size))) }
{
    if a.address <= b.address {
        b.size != 0 && b.address - a.address < a.size
    } else {
        a.size != 0 && a.address - b.address < b.size
    }
}

/// Whether one entry is a segment that has a byte in common with another.
fn shares_with(bytes: &[u8], earlier: usize, number: usize) -> bool
    requires table { HasProgramTable bytes.now }
    requires earlier { earlier < e_phnum bytes.now }
    requires within { number < e_phnum bytes.now }
    ensures { IsTrue result ↔ SharesWith bytes.now earlier number }
{
    let other = program_header(bytes, earlier);
    if other.kind != PT_LOAD {
        return false;
    }
    overlap(other, program_header(bytes, number))
}

/// Whether a segment has a byte in common with an earlier one.
fn shares_byte(bytes: &[u8], number: usize) -> bool
    requires table { HasProgramTable bytes.now }
    requires within { number < e_phnum bytes.now }
    ensures { IsTrue result ↔ SharesByte bytes.now number }
{
    for earlier in 0..number {
        if shares_with(bytes, earlier, number) {
            return true;
        }
    }
    false
}

/// Refuses a file with a bad segment, for the first one.
pub fn check_segments(bytes: &[u8]) -> Result<(), FileFault>
    requires { HasProgramTable bytes.now }
    ensures { Looks (Holds bytes.now) 8 9 result }
{
    for number in 0..program_count(bytes) {
        if program_header(bytes, number).kind != PT_LOAD {
            continue;
        }
        if is_bad_segment(bytes, number) || shares_byte(bytes, number) {
            return Err(FileFault::Segment(number as u32));
        }
    }
    Ok(())
}

/// Whether the segments have more memory than a file may have.
fn has_too_much_memory(bytes: &[u8]) -> bool
    requires { HasProgramTable bytes.now }
    ensures { IsTrue result ↔ (268435456 < memory_size bytes.now) }
{
    let mut total: u64 = 0;
    for number in 0..program_count(bytes) {
        let header = program_header(bytes, number);
        if header.kind != PT_LOAD {
            continue;
        }
        if header.size > MOST_MEMORY - total {
            return true;
        }
        total += header.size;
    }
    false
}

/// Refuses a file whose segments have too much memory.
pub fn check_memory_size(bytes: &[u8]) -> Result<(), FileFault>
    requires { HasProgramTable bytes.now }
    ensures { Looks (Holds bytes.now) 9 10 result }
{
    if has_too_much_memory(bytes) {
        return Err(FileFault::TooBig);
    }
    Ok(())
}

/// The segment that a program header describes.
fn segment(alloc: Global, bytes: &[u8], number: usize) -> Result<Segment, AllocError>
    requires table { HasProgramTable bytes.now }
    requires within { number < e_phnum bytes.now }
    ensures { IfOk result (λ segment. segment_part segment ≡ segment_at bytes.now (program_header_at bytes.now number)) }
{
    let header = program_header(bytes, number);
    let contents = Vec::from_slice(alloc, range_at(bytes, header.offset, header.file_size))?;
    Ok(Segment {
        address: header.address,
        size: header.size,
        flags: header.flags,
        bytes: List::of(contents),
    })
}

/// The segments of a file, in the order of their program headers.
pub fn read_segments(alloc: Global, bytes: &[u8]) -> Result<Vec<Segment>, AllocError>
    requires { HasProgramTable bytes.now }
    ensures { IfOk result (λ segments. map segment_part segments.items ≡ segments_of bytes.now) }
{
    let mut segments = Vec::new(alloc);
    for number in 0..program_count(bytes) {
        if program_header(bytes, number).kind != PT_LOAD {
            continue;
        }
        segments.push(segment(alloc, bytes, number)?)?;
    }
    Ok(segments)
}
