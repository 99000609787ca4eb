ghost use Rattle.std.specs.Prelude.{◌≡◌, ◌+◌, ◌<◌, ◌^◌, [], ◌∷◌, ◌++◌, map, flat_map, IfOk, OnOk};
ghost use Rattle.std.specs.List.{AllByRecursion};
ghost use Rattle.byteorder.specs.Endian.{little_bytes};
ghost use Rattle.elf_write.specs.Image.{image_part, code_part};
ghost use Rattle.elf_write.specs.ImageFile.{offset_after, end_of, header_of, program_headers, with_parts};

use crate::image::{Image, ImageSegment};
use crate::places::{offset_after, sum};
use byteorder::{ByteOrder, LittleEndian};
use elf_format::{ProgramHeader, pad_to, push_program_header};
use ev_graph::{List, NoMemory};
use std::alloc::{AllocError, Global};

/// The flag of a segment that may be executed.
const PF_X: u32 = 1;

/// The code's bytes.
fn code_bytes(alloc: Global, words: &[u32]) -> Result<Vec<u8>, AllocError>
    ensures bytes { IfOk result (λ bytes. bytes.items ≡ flat_map (little_bytes 4) words.now) }
    ensures fit { IfOk result (λ _. AllByRecursion (λ word. word < 2 ^ 32) words.now) }
{
    let mut bytes = Vec::new(alloc);
    for word in words {
        let mut spelled = [0; 4];
        LittleEndian::write_u32(&mut spelled, *word);
        bytes.extend_from_slice(&spelled)?;
    }
    Ok(bytes)
}

/// The code as a segment that may only be executed.
pub fn code_segment(alloc: Global, image: &Image) -> Result<ImageSegment, NoMemory>
    ensures part { IfOk result (λ code. image_part code ≡ code_part image.now.code_address image.now.words) }
    ensures fit { IfOk result (λ _. AllByRecursion (λ word. word < 2 ^ 32) image.now.words) }
{
    let bytes = List::of(code_bytes(alloc, image.words.as_slice())?);
    Ok(ImageSegment {
        address: image.code_address,
        size: bytes.as_slice().len() as u64,
        flags: PF_X,
        bytes,
    })
}

/// Where the bytes of segments end that begin behind `end`.
pub fn parts_end(end: u64, segments: &[ImageSegment]) -> Result<u64, NoMemory>
    ensures { IfOk result (λ last. last ≡ end_of end (map image_part segments.now)) }
{
    let mut end = end;
    for segment in segments {
        let offset = offset_after(end, segment.address)?;
        end = sum(offset, segment.bytes.as_slice().len() as u64)?;
    }
    Ok(end)
}

/// The program header of a segment whose bytes stand behind `end`.
pub fn program_header_of(end: u64, segment: &ImageSegment) -> Result<ProgramHeader, NoMemory>
    ensures { IfOk result (λ header. header ≡ header_of (offset_after end segment.now.address) (image_part segment.now)) }
{
    Ok(ProgramHeader {
        flags: segment.flags,
        offset: offset_after(end, segment.address)?,
        address: segment.address,
        file_size: segment.bytes.as_slice().len() as u64,
        size: segment.size,
    })
}

/// Appends the program headers of segments whose bytes begin behind `end`.
pub fn push_program_headers(
    out: &mut Vec<u8>,
    end: u64,
    segments: &[ImageSegment],
) -> Result<(), NoMemory>
    ensures { OnOk result (out.new.items ≡ out.old.items ++ program_headers end (map image_part segments.now)) }
{
    let mut end = end;
    for segment in segments {
        let header = program_header_of(end, segment)?;
        push_program_header(out, header)?;
        end = sum(header.offset, header.file_size)?;
    }
    Ok(())
}

/// Appends the bytes of a segment at its offset.
pub fn push_part(out: &mut Vec<u8>, segment: &ImageSegment) -> Result<(), NoMemory>
    ensures { OnOk result (out.new.items ≡ with_parts out.old.items (image_part segment.now ∷ [])) }
{
    let offset = offset_after(out.len() as u64, segment.address)?;
    pad_to(out, offset as usize)?;
    out.extend_from_slice(segment.bytes.as_slice())?;
    Ok(())
}

/// Appends the bytes of segments, each at its offset.
pub fn push_parts(out: &mut Vec<u8>, segments: &[ImageSegment]) -> Result<(), NoMemory>
    ensures { OnOk result (out.new.items ≡ with_parts out.old.items (map image_part segments.now)) }
{
    for segment in segments {
        push_part(out, segment)?;
    }
    Ok(())
}
