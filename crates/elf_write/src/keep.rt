ghost use Rattle.std.specs.Prelude.{◌≡◌, ◌≤◌, ◌^◌, map, bit_and, IfOk};
ghost use Rattle.elf_read.specs.Elf.{segment_part};
ghost use Rattle.elf_write.specs.Image.{EndBefore, IsCodeAddress, highest_end, image_part, kept};

use crate::image::ImageSegment;
use elf_read::Segment;
use ev_graph::{List, NoMemory};
use std::alloc::{AllocError, Global};

/// The flags R 4 and W 2 together.
const DATA_FLAGS: u32 = 6;

/// What the code's address is a multiple of.
const CODE_ALIGNMENT: u64 = 0x1_0000;

/// The segment with the flags R and W alone.
fn kept_segment(alloc: Global, segment: &Segment) -> Result<ImageSegment, AllocError>
    ensures { IfOk result (λ made. image_part made ≡ record (segment_part segment.now) { flags = bit_and segment.now.flags 6 }) }
{
    let bytes = List::of(Vec::from_slice(alloc, segment.bytes.as_slice())?);
    Ok(ImageSegment {
        address: segment.address,
        size: segment.size,
        flags: segment.flags & DATA_FLAGS,
        bytes,
    })
}

/// The segments that an image keeps of an input's: those of nonzero size, in order, at their addresses
/// and with their bytes, and with the flags R and W alone.
pub fn kept_segments(alloc: Global, segments: &[Segment]) -> Result<List<ImageSegment>, NoMemory>
    ensures { IfOk result (λ made. map image_part made ≡ kept (map segment_part segments.now)) }
{
    let mut made = Vec::new(alloc);
    for segment in segments {
        if segment.size == 0 {
            continue;
        }
        made.push(kept_segment(alloc, segment)?)?;
    }
    Ok(List::of(made))
}

/// The highest end of the segments.
fn highest_end(segments: &[ImageSegment]) -> u64
    requires { EndBefore (2 ^ 46) (map image_part segments.now) }
    ensures value { result ≡ highest_end (map image_part segments.now) }
    ensures low { result ≤ 2 ^ 46 }
{
    let mut end = 0;
    for segment in segments {
        end = (segment.address + segment.size).max(end);
    }
    end
}

/// Where an image's code stands behind these segments, which end at 2^46 at most: at the least multiple
/// of 65,536 that is not below the end of any.
pub fn code_address(segments: &[ImageSegment]) -> u64
    requires { EndBefore (2 ^ 46) (map image_part segments.now) }
    ensures place { IsCodeAddress (map image_part segments.now) result }
    ensures low { result ≤ 2 ^ 46 }
{
    (highest_end(segments) + (CODE_ALIGNMENT - 1)) / CODE_ALIGNMENT * CODE_ALIGNMENT
}
