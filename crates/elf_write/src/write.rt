ghost use Rattle.std.specs.Prelude.{◌≡◌, ◌<◌, ◌≤◌, ◌^◌, [], ◌∷◌, ◌++◌, length, map, IfOk};
ghost use Rattle.elf_write.specs.Image.{IsImage, image_part};
ghost use Rattle.elf_write.specs.ImageFile.{places_from, parts_at, front_of, end_of};
ghost use Rattle.elf_write.specs.Written.{IsFileOf};

use crate::image::{Image, ImageSegment};
use crate::parts::{
    code_segment, parts_end, program_header_of, push_part, push_parts, push_program_headers,
};
use crate::places::{Places, offset_after, places_behind, sum};
use crate::tables::{Tables, push_tables, thread_tables};
use elf_format::{FileHeader, push_file_header, push_program_header};
use ev_graph::NoMemory;
use std::alloc::Global;

/// The machine EM_AARCH64.
const MACHINE: u16 = 183;

/// The start of an image's file, up to the end of its parts.
fn image_front(
    alloc: Global,
    header: FileHeader,
    segments: &[ImageSegment],
    code: &ImageSegment,
) -> Result<Vec<u8>, NoMemory>
    requires { length segments.now ≤ 64 }
    ensures { IfOk result (λ out. out.items ≡ front_of header (map image_part segments.now ++ image_part code.now ∷ [])) }
{
    let mut out = Vec::new(alloc);
    push_file_header(&mut out, header)?;
    let start = 64 + 56 * (segments.len() as u64 + 1);
    push_program_headers(&mut out, start, segments)?;
    let code_header = program_header_of(parts_end(start, segments)?, code)?;
    push_program_header(&mut out, code_header)?;
    push_parts(&mut out, segments)?;
    push_part(&mut out, code)?;
    Ok(out)
}

/// Where the tables stand behind the parts of an image.
fn image_places(
    segments: &[ImageSegment],
    code: &ImageSegment,
    tables: &Tables,
) -> Result<Places, NoMemory>
    requires { length segments.now ≤ 64 }
    ensures value { IfOk result (λ found. let parts = map image_part segments.now ++ image_part code.now ∷ [] in
        found ≡ places_from (end_of (parts_at parts) parts) (length tables.now.symbols) (length tables.now.strings)) }
    ensures fits { IfOk result (λ found. found.sections < 2 ^ 64) }
{
    let start = 64 + 56 * (segments.len() as u64 + 1);
    let code_at = offset_after(parts_end(start, segments)?, code.address)?;
    let end = sum(code_at, code.bytes.as_slice().len() as u64)?;
    let symbols = tables.symbols.as_slice();
    let strings = tables.strings.as_slice();
    let places = places_behind(end, symbols.len(), strings.len())?;
    Ok(places)
}

/// The bytes of an image's file (System V gABI, chapters 4 and 5): the header, the program headers,
/// the bytes of the segments and of the code, each at an offset equal to its address modulo 4,096,
/// and then the symbols of the threads, `thread_0` and so on, with their section headers.
///
/// The code may only be executed. Its offsets are 64-bit numbers, so a longer file has no memory.
pub fn write_elf(alloc: Global, image: &Image) -> Result<Vec<u8>, NoMemory>
    requires { IsImage image.now }
    ensures { IfOk result (λ bytes. IsFileOf image.now bytes.items) }
{
    let segments = image.segments.as_slice();
    let threads = image.threads.as_slice();
    let code = code_segment(alloc, image)?;
    let tables = thread_tables(alloc, threads)?;
    let places = image_places(segments, &code, &tables)?;
    let header = FileHeader {
        machine: MACHINE,
        entry: threads[0],
        sections_at: places.sections,
        segment_count: segments.len() as u16 + 1,
        section_count: 4,
        names_section: 3,
    };
    let mut out = image_front(alloc, header, segments, &code)?;
    push_tables(&mut out, places, &tables)?;
    Ok(out)
}
