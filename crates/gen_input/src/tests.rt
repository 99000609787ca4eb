ghost use Rattle.std.specs.Prelude.{◌≤◌, length, IfOk};
ghost use Rattle.gen_input.specs.BuiltFile.{IsShort};

use crate::{Symbol, build, make};
use ev_graph::List;
use std::alloc::Global;
use std::test::Fail;

/// The parts of the least file that are not zero, each with its offset: the header, two program headers,
/// a return, the symbol `thread_0` with its name, and two section headers.
const LEAST: [(usize, &[u8]); 12] = [
    (
        0,
        b"\x7FELF\x02\x01\x01\0\0\0\0\0\0\0\0\0\x02\0\x3E\0\x01\0\0\0\0\x10\x40\0\0\0\0\0",
    ),
    (
        32,
        b"\x40\0\0\0\0\0\0\0\0\x40\0\0\0\0\0\0\0\0\0\0\x40\0\x38\0\x02\0\x40\0\x03\0\0\0",
    ),
    (
        64,
        b"\x01\0\0\0\x05\0\0\0\0\x10\0\0\0\0\0\0\0\x10\x40\0\0\0\0\0\0\x10\x40\0\0\0\0\0",
    ),
    (
        96,
        b"\x01\0\0\0\0\0\0\0\x01\0\0\0\0\0\0\0\0\x10\0\0\0\0\0\0",
    ),
    (
        120,
        b"\x01\0\0\0\x06\0\0\0\0\x20\0\0\0\0\0\0\0\x40\x40\0\0\0\0\0\0\x40\x40\0\0\0\0\0",
    ),
    (
        152,
        b"\x40\0\0\0\0\0\0\0\x40\0\0\0\0\0\0\0\0\x10\0\0\0\0\0\0",
    ),
    (0x1000, b"\xC3"),
    (
        0x3018,
        b"\x01\0\0\0\x12\0\xF1\xFF\0\x10\x40\0\0\0\0\0\0\0\0\0\0\0\0\0",
    ),
    (0x3030, b"\0thread_0\0"),
    (
        0x4040,
        b"\0\0\0\0\x02\0\0\0\0\0\0\0\0\0\0\0\0\0\0\0\0\0\0\0\0\x30\0\0\0\0\0\0\x30\0\0\0\0\0\0\0\x02\0\0\0\x01\0\0\0\x08\0\0\0\0\0\0\0\x18\0\0\0\0\0\0\0",
    ),
    (
        0x4080,
        b"\0\0\0\0\x03\0\0\0\0\0\0\0\0\0\0\0\0\0\0\0\0\0\0\0\x30\x30\0\0\0\0\0\0\x0A\0\0\0\0\0\0\0",
    ),
    (0x40B0, b"\x01\0\0\0\0\0\0\0"),
];

/// Two threads, each of which writes one cell and reads the other's.
const STORE_BUFFERING: &[u8; 44] =
    b"\xBF\x00\x40\x40\x00\xBE\x08\x40\x40\x00\xB8\x01\x00\x00\x00\x48\x89\x07\x48\x8B\x06\xC3\xBF\x08\x40\x40\x00\xBE\x00\x40\x40\x00\xB8\x01\x00\x00\x00\x48\x89\x07\x48\x8B\x06\xC3";

/// Pieces of the file of those two threads: the sizes of the code, the symbols behind the empty one,
/// their names, and the offsets and sizes of both tables.
const PIECES: [(usize, &[u8]); 7] = [
    (96, b"\x2C\0\0\0\0\0\0\0\x2C\0\0\0\0\0\0\0"),
    (0x1000, STORE_BUFFERING),
    (
        0x3018,
        b"\x01\0\0\0\x12\0\xF1\xFF\0\x10\x40\0\0\0\0\0\0\0\0\0\0\0\0\0",
    ),
    (
        0x3030,
        b"\x0A\0\0\0\x12\0\xF1\xFF\x16\x10\x40\0\0\0\0\0\0\0\0\0\0\0\0\0",
    ),
    (0x3048, b"\0thread_0\0thread_1\0\0"),
    (0x4058, b"\0\x30\0\0\0\0\0\0\x48\0\0\0\0\0\0\0"),
    (0x4098, b"\x48\x30\0\0\0\0\0\0\x13\0\0\0\0\0\0\0"),
];

/// A symbol.
fn symbol(alloc: Global, name: &[u8], address: u64) -> Result<Symbol, Fail>
    requires { length name.now ≤ 32 }
    ensures { IfOk result IsShort }
{
    let name = List::of(Vec::from_slice(alloc, name)?);
    Ok(Symbol { name, address })
}

#[test]
fn least_file_is_built(rt: HostRuntime) -> Result<(), Fail> {
    let alloc = rt.alloc();
    let mut wanted = vec![in alloc; 0u8; 16_576]?;
    for (offset, part) in LEAST {
        for (place, byte) in part.iter().enumerate() {
            if let Some(cell) = wanted.get_mut(offset.saturating_add(place)) {
                *cell = *byte;
            }
        }
    }
    let threads = [symbol(alloc, b"thread_0", 0x401000)?];
    let file = build(alloc, b"\xC3", &[0; 64], 0x404000, &threads).map_err(|_| "not built")?;
    assert_eq!(rt; file.as_slice(), wanted.as_slice());
    Ok(())
}

#[test]
fn store_buffering_is_built(rt: HostRuntime) -> Result<(), Fail> {
    let alloc = rt.alloc();
    let threads = [
        symbol(alloc, b"thread_0", 0x401000)?,
        symbol(alloc, b"thread_1", 0x401016)?,
    ];
    let file = build(alloc, STORE_BUFFERING, &[0; 64], 0x404000, &threads).map_err(
        |_| "not built",
    )?;
    assert_eq!(rt; file.len(), 16_576);
    for (place, wanted) in PIECES {
        let found = file
            .get(place..)
            .and_then(|tail| tail.get(..wanted.len()))
            .ok_or("short")?;
        assert_eq!(rt; found, wanted, "at {place}");
    }
    Ok(())
}

#[test]
fn code_of_whole_pages_is_built(rt: HostRuntime) -> Result<(), Fail> {
    let alloc = rt.alloc();
    for (size, wanted) in [(0, 12_480), (4095, 16_576), (4096, 16_576), (4097, 20_672)] {
        let code = vec![in alloc; 0x90u8; size]?;
        if code.len() <= 8192 {
            let file = build(alloc, &code, &[], 0x800000, &[]).map_err(|_| "not built")?;
            assert_eq!(rt; file.len(), wanted, "at {size}");
        }
    }
    Ok(())
}

#[test]
fn rounds_are_made(rt: HostRuntime) -> Result<(), Fail> {
    let alloc = rt.alloc();
    let one: &[u8] = b"\xBF\x00\x00\x80\x00\x48\x89\x47\x08\xC3\0\0";
    let four: &[u8] =
        b"\xBF\x00\x00\x80\x00\x48\x89\x47\x08\x48\x8B\x47\x10\xF0\x48\x0F\xC1\x47\x18\x0F\xAE\xF0\x75\x00\xC3\0\0";
    for (rounds, wanted) in [(1, one), (4, four)] {
        let file = make(alloc, rounds).map_err(|_| "not made")?;
        assert_eq!(rt; file.len(), 16_576);
        let code = file
            .get(0x1000..)
            .and_then(|tail| tail.get(..wanted.len()))
            .ok_or("short")?;
        assert_eq!(rt; code, wanted, "of {rounds}");
    }
    Ok(())
}

/// The program headers' sizes and offsets say how long the code is, 0x1731E bytes; the symbols are both at 401000.
const MOST: [(usize, &[u8]); 6] = [
    (96, b"\x1E\x73\x01\0\0\0\0\0\x1E\x73\x01\0\0\0\0\0"),
    (136, b"\0\0\x80\0\0\0\0\0"),
    (0x1831D, b"\xC3\0"),
    (
        0x1A018,
        b"\x01\0\0\0\x12\0\xF1\xFF\0\x10\x40\0\0\0\0\0\0\0\0\0\0\0\0\0",
    ),
    (
        0x1A030,
        b"\x0A\0\0\0\x12\0\xF1\xFF\0\x10\x40\0\0\0\0\0\0\0\0\0\0\0\0\0",
    ),
    (0x1A048, b"\0thread_0\0thread_1\0\0"),
];

#[test]
fn most_rounds_are_made(rt: HostRuntime) -> Result<(), Fail> {
    let file = make(rt.alloc(), 20_000).map_err(|_| "not made")?;
    assert_eq!(rt; file.len(), 0x1B0C0);
    for (place, wanted) in MOST {
        let found = file
            .get(place..)
            .and_then(|tail| tail.get(..wanted.len()))
            .ok_or("short")?;
        assert_eq!(rt; found, wanted, "at {place}");
    }
    Ok(())
}
