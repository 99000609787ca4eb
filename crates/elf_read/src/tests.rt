use crate::{Elf, FileFault, TransFault, read_elf};
use ev_graph::StartMemory;
use std::alloc::Global;
use std::test::Fail;

/// A part of a file: where it stands, and its bytes.
type Part = (usize, &'static [u8]);

/// The bytes of each file below.
const SIZE: usize = 16_576;

/// What is not zero in a file of one return at 401000, 64 cells at 404000 and `thread_0`.
const LEAST: [Part; 12] = [
    (
        0,
        b"\x7FELF\x02\x01\x01\0\0\0\0\0\0\0\0\0\x02\0\x3E\0\x01\0\0\0\0\x10\x40\0\0\0\0\0",
    ),
    (
        32,
        b"\x40\0\0\0\0\0\0\0\0\x40\0\0\0\0\0\0\0\0\0\0\x40\0\x38\0\x02\0\x40\0\x03\0\0\0",
    ),
    (
        64,
        b"\x01\0\0\0\x05\0\0\0\0\x10\0\0\0\0\0\0\0\x10\x40\0\0\0\0\0\0\x10\x40\0\0\0\0\0",
    ),
    (
        96,
        b"\x01\0\0\0\0\0\0\0\x01\0\0\0\0\0\0\0\0\x10\0\0\0\0\0\0",
    ),
    (
        120,
        b"\x01\0\0\0\x06\0\0\0\0\x20\0\0\0\0\0\0\0\x40\x40\0\0\0\0\0\0\x40\x40\0\0\0\0\0",
    ),
    (
        152,
        b"\x40\0\0\0\0\0\0\0\x40\0\0\0\0\0\0\0\0\x10\0\0\0\0\0\0",
    ),
    (0x1000, b"\xC3"),
    (
        0x3018,
        b"\x01\0\0\0\x12\0\xF1\xFF\0\x10\x40\0\0\0\0\0\0\0\0\0\0\0\0\0",
    ),
    (0x3030, b"\0thread_0\0"),
    (
        0x4040,
        b"\0\0\0\0\x02\0\0\0\0\0\0\0\0\0\0\0\0\0\0\0\0\0\0\0\0\x30\0\0\0\0\0\0\x30\0\0\0\0\0\0\0\x02\0\0\0\x01\0\0\0\x08\0\0\0\0\0\0\0\x18\0\0\0\0\0\0\0",
    ),
    (
        0x4080,
        b"\0\0\0\0\x03\0\0\0\0\0\0\0\0\0\0\0\0\0\0\0\0\0\0\0\x30\x30\0\0\0\0\0\0\x0A\0\0\0\0\0\0\0",
    ),
    (0x40B0, b"\x01\0\0\0\0\0\0\0"),
];

/// The code of store buffering: each thread writes 1 to one cell and reads the other.
const CODE: &[u8; 44] =
    b"\xBF\0\x40\x40\0\xBE\x08\x40\x40\0\xB8\x01\0\0\0\x48\x89\x07\x48\x8B\x06\xC3\xBF\x08\x40\x40\0\xBE\0\x40\x40\0\xB8\x01\0\0\0\x48\x89\x07\x48\x8B\x06\xC3";

/// What its file has in other places than that of one return: sizes, `thread_1` at 401016, names.
const STORE_BUFFERING: [Part; 8] = [
    (96, b"\x2C"),
    (104, b"\x2C"),
    (0x1000, CODE),
    (
        0x3030,
        b"\x0A\0\0\0\x12\0\xF1\xFF\x16\x10\x40\0\0\0\0\0\0\0\0\0\0\0\0\0",
    ),
    (0x3048, b"\0thread_0\0thread_1\0"),
    (0x4060, b"\x48"),
    (0x4098, b"\x48"),
    (0x40A0, b"\x13"),
];

fn put(bytes: &mut Vec<u8>, part: Part) {
    let (offset, part) = part;
    for (place, byte) in part.iter().enumerate() {
        if let Some(cell) = bytes.get_mut(offset.saturating_add(place)) {
            *cell = *byte;
        }
    }
}

/// The file of one return.
fn least_file(alloc: Global) -> Result<Vec<u8>, Fail> {
    let mut bytes = vec![in alloc; 0u8; SIZE]?;
    for part in LEAST {
        put(&mut bytes, part);
    }
    Ok(bytes)
}

/// The file of store buffering.
fn store_buffering_file(alloc: Global) -> Result<Vec<u8>, Fail> {
    let mut bytes = least_file(alloc)?;
    for part in STORE_BUFFERING {
        put(&mut bytes, part);
    }
    Ok(bytes)
}

/// Why a file is refused, if it is.
fn fault_of(alloc: Global, bytes: &[u8]) -> Result<Option<FileFault>, Fail> {
    match read_elf(alloc, bytes) {
        Ok(_) => Ok(None),
        Err(TransFault::File(fault)) => Ok(Some(fault)),
        Err(TransFault::NoMemory) => Err(Fail::from("no memory")),
    }
}

/// A file that is accepted.
fn accepted(alloc: Global, bytes: &[u8]) -> Result<Elf, Fail> {
    read_elf(alloc, bytes).map_err(|_| Fail::from("refused"))
}

#[test]
fn store_buffering_is_read(rt: HostRuntime) -> Result<(), Fail> {
    let alloc = rt.alloc();
    let bytes = store_buffering_file(alloc)?;
    let elf = accepted(alloc, &bytes)?;
    assert_eq!(rt; elf.threads.as_slice(), [0x40_1000, 0x40_1016].as_slice());
    assert_eq!(rt; elf.input, None);
    assert_eq!(rt; elf.output, None);
    let wanted: [(u64, u64, u32, &[u8]); 2] = [
        (0x40_1000, 44, 5, CODE.as_slice()),
        (0x40_4000, 64, 6, [0u8; 64].as_slice()),
    ];
    assert_eq!(rt; elf.segments.as_slice().len(), wanted.len());
    for (segment, (address, size, flags, contents)) in elf.segments.as_slice().iter().zip(wanted) {
        assert_eq!(rt; segment.address, address);
        assert_eq!(rt; segment.size, size);
        assert_eq!(rt; segment.flags, flags);
        assert_eq!(rt; segment.bytes.as_slice(), contents);
    }
    Ok(())
}

#[test]
fn memory_is_told(rt: HostRuntime) -> Result<(), Fail> {
    let alloc = rt.alloc();
    let mut bytes = store_buffering_file(alloc)?;
    put(&mut bytes, (160, b"\x80"));
    let elf = accepted(alloc, &bytes)?;
    for (address, byte) in [
        (0x40_0FFF, None),
        (0x40_1000, Some(0xBF)),
        (0x40_102B, Some(0xC3)),
        (0x40_102C, None),
        (0x40_403F, Some(0)),
        (0x40_407F, Some(0)),
        (0x40_4080, None),
    ] {
        assert_eq!(rt; elf.start_byte(address), byte, "at {address}");
    }
    for (address, size, write, allowed) in [
        (0x40_1000, 8, false, true),
        (0x40_1000, 1, true, false),
        (0x40_1025, 8, false, false),
        (0x40_4078, 8, true, true),
        (0x40_4079, 8, true, false),
        (u64::MAX, 2, false, false),
    ] {
        assert_eq!(rt; elf.allows(address, size, write), allowed, "at {address}");
    }
    Ok(())
}

#[test]
fn each_cut_is_refused(rt: HostRuntime) -> Result<(), Fail> {
    let alloc = rt.alloc();
    let bytes = least_file(alloc)?;
    for size in 0..bytes.len() {
        let wanted = match size {
            0..=63 => FileFault::Short,
            64..=175 => FileFault::ProgramTable,
            176..=4096 => FileFault::Segment(0),
            4097..=8255 => FileFault::Segment(1),
            _ => FileFault::SymbolTable,
        };
        assert_eq!(rt; fault_of(alloc, &bytes[..size])?, Some(wanted), "at {size}");
    }
    assert_eq!(rt; fault_of(alloc, &bytes)?, None);
    Ok(())
}

#[test]
fn changed_fields_are_refused(rt: HostRuntime) -> Result<(), Fail> {
    let alloc = rt.alloc();
    let cases: [(Part, Option<FileFault>); 12] = [
        ((18, b"\xB7"), Some(FileFault::Machine(183))),
        ((56, b"\x41"), Some(FileFault::ProgramTable)),
        ((120, b"\x03"), Some(FileFault::ProgramTable)),
        (
            (128, b"\xFF\xFF\xFF\xFF\xFF\xFF\xFF\xFF"),
            Some(FileFault::Segment(1)),
        ),
        ((152, b"\x41"), Some(FileFault::Segment(1))),
        ((124, b"\x03"), Some(FileFault::Segment(1))),
        ((136, b"\0\0\0\0\0\x40\0\0"), Some(FileFault::Segment(1))),
        ((160, b"\0\0\0\x10"), Some(FileFault::TooBig)),
        ((160, b"\xFF\xFF\xFF\x0F"), None),
        ((0x3018, b"\x0A"), Some(FileFault::SymbolTable)),
        ((0x4048, b"\0\x08"), Some(FileFault::SymbolTable)),
        ((0x3038, b"1"), Some(FileFault::NoThread)),
    ];
    for (part, wanted) in cases {
        let mut bytes = least_file(alloc)?;
        put(&mut bytes, part);
        let (offset, _) = part;
        assert_eq!(rt; fault_of(alloc, &bytes)?, wanted, "at {offset}");
    }
    Ok(())
}

#[test]
fn first_fault_is_told(rt: HostRuntime) -> Result<(), Fail> {
    let alloc = rt.alloc();
    let mut shared = least_file(alloc)?;
    put(&mut shared, (136, b"\0\x10\x40"));
    put(&mut shared, (40, b"\0\0\0\0\0\0\0\0"));
    put(&mut shared, (60, b"\0\0"));
    assert_eq!(rt; fault_of(alloc, &shared)?, Some(FileFault::Segment(1)));
    let mut twice = store_buffering_file(alloc)?;
    put(&mut twice, (0x3059, b"0"));
    assert_eq!(rt; fault_of(alloc, &twice)?, Some(FileFault::DoubleName(2)));
    Ok(())
}

#[test]
fn empty_ranges_pass_no_end(rt: HostRuntime) -> Result<(), Fail> {
    let alloc = rt.alloc();
    let mut bytes = least_file(alloc)?;
    put(&mut bytes, (128, b"\xFF\xFF\xFF\xFF\xFF\xFF\xFF\xFF"));
    put(&mut bytes, (152, b"\0"));
    assert_eq!(rt; fault_of(alloc, &bytes)?, None);
    Ok(())
}
