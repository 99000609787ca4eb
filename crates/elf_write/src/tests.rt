ghost use Rattle.std.specs.Prelude.{IfOk};
ghost use Rattle.elf_write.specs.Image.{IsImage};

use crate::{Image, ImageSegment, code_address, kept_segments, write_elf};
use elf_read::Segment;
use ev_graph::{List, StartMemory};
use std::alloc::Global;
use std::test::Fail;

/// Two threads, each of which writes one cell and reads the other's.
const STORE_BUFFERING: &[u8; 44] =
    b"\xBF\x00\x40\x40\x00\xBE\x08\x40\x40\x00\xB8\x01\x00\x00\x00\x48\x89\x07\x48\x8B\x06\xC3\xBF\x08\x40\x40\x00\xBE\x00\x40\x40\x00\xB8\x01\x00\x00\x00\x48\x89\x07\x48\x8B\x06\xC3";

/// The parts of its image's file that are not zero, each with its offset: the header, three program
/// headers, the kept code, one word of the image (svc #3), the threads' symbols with their names, the
/// sections' names, and three section headers.
const FILE: [(usize, &[u8]); 11] = [
    (
        0,
        b"\x7FELF\x02\x01\x01\0\0\0\0\0\0\0\0\0\x02\0\xB7\0\x01\0\0\0\0\0\x41\0\0\0\0\0\x40\0\0\0\0\0\0\0\x80\x30\0\0\0\0\0\0\0\0\0\0\x40\0\x38\0\x03\0\x40\0\x04\0\x03\0",
    ),
    (
        64,
        b"\x01\0\0\0\x04\0\0\0\0\x10\0\0\0\0\0\0\0\x10\x40\0\0\0\0\0\0\x10\x40\0\0\0\0\0\x2C\0\0\0\0\0\0\0\x2C\0\0\0\0\0\0\0\0\x10\0\0\0\0\0\0",
    ),
    (
        120,
        b"\x01\0\0\0\x06\0\0\0\0\x20\0\0\0\0\0\0\0\x40\x40\0\0\0\0\0\0\x40\x40\0\0\0\0\0\x40\0\0\0\0\0\0\0\x40\0\0\0\0\0\0\0\0\x10\0\0\0\0\0\0",
    ),
    (
        176,
        b"\x01\0\0\0\x01\0\0\0\0\x30\0\0\0\0\0\0\0\0\x41\0\0\0\0\0\0\0\x41\0\0\0\0\0\x04\0\0\0\0\0\0\0\x04\0\0\0\0\0\0\0\0\x10\0\0\0\0\0\0",
    ),
    (0x1000, STORE_BUFFERING),
    (0x3000, b"\x61\0\0\xD4"),
    (
        0x3020,
        b"\x01\0\0\0\x12\0\xF1\xFF\0\0\x41\0\0\0\0\0\0\0\0\0\0\0\0\0\x0A\0\0\0\x12\0\xF1\xFF\0\0\x41\0\0\0\0\0\0\0\0\0\0\0\0\0",
    ),
    (
        0x3050,
        b"\0thread_0\0thread_1\0\0.symtab\0.strtab\0.shstrtab\0",
    ),
    (
        0x30C0,
        b"\x01\0\0\0\x02\0\0\0\0\0\0\0\0\0\0\0\0\0\0\0\0\0\0\0\x08\x30\0\0\0\0\0\0\x48\0\0\0\0\0\0\0\x02\0\0\0\x01\0\0\0\x08\0\0\0\0\0\0\0\x18\0\0\0\0\0\0\0",
    ),
    (
        0x3100,
        b"\x09\0\0\0\x03\0\0\0\0\0\0\0\0\0\0\0\0\0\0\0\0\0\0\0\x50\x30\0\0\0\0\0\0\x13\0\0\0\0\0\0\0\0\0\0\0\0\0\0\0\x01\0\0\0\0\0\0\0",
    ),
    (
        0x3140,
        b"\x11\0\0\0\x03\0\0\0\0\0\0\0\0\0\0\0\0\0\0\0\0\0\0\0\x63\x30\0\0\0\0\0\0\x1B\0\0\0\0\0\0\0\0\0\0\0\0\0\0\0\x01\0\0\0\0\0\0\0",
    ),
];

/// The image of store buffering with one word, at which both threads begin.
fn image(alloc: Global) -> Result<Image, Fail>
    ensures { IfOk result IsImage }
{
    let code = Segment {
        address: 0x401000,
        size: 44,
        flags: 5,
        bytes: List::of(Vec::from_slice(alloc, STORE_BUFFERING)?),
    };
    let empty = Segment {
        address: 0x403000,
        size: 0,
        flags: 4,
        bytes: List::of(Vec::new(alloc)),
    };
    let cells = Segment {
        address: 0x404000,
        size: 64,
        flags: 6,
        bytes: List::of(Vec::from_slice(alloc, &[0; 64])?),
    };
    let input = Vec::from_array(alloc, [code, empty, cells])?;
    let segments = kept_segments(alloc, &input)?;
    let code_address = code_address(segments.as_slice());
    Ok(Image {
        segments,
        code_address,
        words: List::of(Vec::from_slice(alloc, &[0xD400_0061])?),
        threads: List::of(Vec::from_slice(alloc, &[code_address, code_address])?),
    })
}

#[test]
fn image_is_written(rt: HostRuntime) -> Result<(), Fail> {
    let alloc = rt.alloc();
    let mut wanted = vec![in alloc; 0u8; 0x3180]?;
    for (offset, part) in FILE {
        for (place, byte) in part.iter().enumerate() {
            if let Some(cell) = wanted.get_mut(offset.saturating_add(place)) {
                *cell = *byte;
            }
        }
    }
    let file = write_elf(alloc, &image(alloc)?).map_err(|_| "not written")?;
    assert_eq!(rt; file.as_slice(), wanted.as_slice());
    Ok(())
}

#[test]
fn memory_is_told(rt: HostRuntime) -> Result<(), Fail> {
    let image = image(rt.alloc())?;
    for (address, byte, readable, writable) in [
        (0x400FFF, None, false, false),
        (0x401000, Some(0xBF), true, false),
        (0x40102B, Some(0xC3), true, false),
        (0x40102C, None, false, false),
        (0x40403F, Some(0), true, true),
        (0x410000, Some(0x61), false, false),
        (0x410003, Some(0xD4), false, false),
        (0x410004, None, false, false),
        (u64::MAX, None, false, false),
    ] {
        assert_eq!(rt; image.start_byte(address), byte, "at {address:x}");
        assert_eq!(rt; image.allows(address, 1, false), readable, "at {address:x}");
        assert_eq!(rt; image.allows(address, 1, true), writable, "at {address:x}");
    }
    assert!(rt; !image.allows(0x40403F, 2, false));
    assert!(rt; !image.allows(u64::MAX, 2, false));
    Ok(())
}

#[test]
fn code_stands_behind_the_segments(rt: HostRuntime) -> Result<(), Fail> {
    let alloc = rt.alloc();
    for (address, wanted) in [
        (0x40_FFC0, 0x41_0000),
        (0x40_FFC1, 0x42_0000),
        (0, 0x1_0000),
    ] {
        let segment = ImageSegment {
            address,
            size: 64,
            flags: 6,
            bytes: List::of(Vec::new(alloc)),
        };
        if address <= 0x40_FFC1 {
            assert_eq!(rt; code_address(&[segment]), wanted);
        }
    }
    Ok(())
}
