use crate::{
    DiskShelf, GetFault, MemShelf, MemSink, NamedFile, PutFault, Shelf, Sink, SinkFault, StdSink,
};
use std::alloc::Global;
use std::fs;
use std::test::Fail;

/// Store buffering: a thread that writes the first cell and reads the second, and one that does so
/// the other way round.
const STORE_BUFFERING: &[u8] =
    b"\xBF\x00\x40\x40\x00\xBE\x08\x40\x40\x00\xB8\x01\x00\x00\x00\x48\x89\x07\x48\x8B\x06\xC3\xBF\x08\x40\x40\x00\xBE\x00\x40\x40\x00\xB8\x01\x00\x00\x00\x48\x89\x07\x48\x8B\x06\xC3";

const LINE: &[u8] =
    b"translated 2 threads, 12 instructions, 2 blocks, 6 accesses, 2 private, 2 frm, 2 fww, 0 fsc\n";

/// A shelf with store buffering under the name `a`, and of whose calls these fail.
fn shelf_with(alloc: Global, failing: &[u64]) -> Result<MemShelf, Fail> {
    let mut files = Vec::new(alloc);
    files.push(NamedFile {
        name: String::from_str(alloc, "a")?,
        bytes: Vec::from_slice(alloc, STORE_BUFFERING)?,
    })?;
    Ok(MemShelf::new(alloc, files, Vec::from_slice(alloc, failing)?))
}

#[test]
fn files_are_got_and_put(rt: HostRuntime) -> Result<(), Fail> {
    let alloc = rt.alloc();
    let mut shelf = shelf_with(alloc, &[])?;
    let bytes = shelf.get(alloc, "a", 44).map_err(|_| "not given")?;
    assert_eq!(rt; bytes.as_slice(), STORE_BUFFERING);
    assert!(rt; matches!(shelf.get(alloc, "a", 43), Err(GetFault::TooLong)));
    assert!(rt; matches!(shelf.get(alloc, "b", 44), Err(GetFault::Failed)));
    assert!(rt; shelf.look("b").is_none());
    assert!(rt; shelf.put("b", &bytes).is_ok());
    assert!(rt; shelf.put("a", b"other").is_ok());
    assert_eq!(rt; shelf.look("b").ok_or("absent")?, STORE_BUFFERING);
    assert_eq!(rt; shelf.look("a").ok_or("absent")?, b"other".as_slice());
    Ok(())
}

#[test]
fn listed_calls_of_a_shelf_fail(rt: HostRuntime) -> Result<(), Fail> {
    let alloc = rt.alloc();
    let mut shelf = shelf_with(alloc, &[0, 2])?;
    assert!(rt; matches!(shelf.get(alloc, "a", 44), Err(GetFault::Failed)));
    assert!(rt; shelf.get(alloc, "a", 44).is_ok());
    assert!(rt; matches!(shelf.put("b", b"seven.."), Err(PutFault::Failed)));
    assert_eq!(rt; shelf.look("b").ok_or("absent")?, b"sev".as_slice());
    assert!(rt; shelf.put("b", b"seven..").is_ok());
    assert_eq!(rt; shelf.look("b").ok_or("absent")?, b"seven..".as_slice());
    Ok(())
}

#[test]
fn text_is_taken(rt: HostRuntime) -> Result<(), Fail> {
    let alloc = rt.alloc();
    let mut sink = MemSink::new(alloc, Vec::from_slice(alloc, &[1])?);
    assert!(rt; sink.write_all(LINE).is_ok());
    assert_eq!(rt; sink.taken(), LINE);
    assert!(rt; matches!(sink.write_all(b"seven.."), Err(SinkFault::Failed)));
    assert!(rt; sink.write_all(b"!").is_ok());
    assert_eq!(rt; sink.taken().len(), LINE.len().saturating_add(4));
    assert!(rt; sink.taken().ends_with(b"sev!"));
    Ok(())
}

#[test]
fn system_files_and_output_are_reached(rt: HostRuntime) -> Result<(), Fail> {
    let alloc = rt.alloc();
    let name = "lz-ports-shelf-test";
    let mut shelf = DiskShelf::new(&rt);
    shelf.put(name, STORE_BUFFERING).map_err(|_| "not kept")?;
    let bytes = shelf.get(alloc, name, 44).map_err(|_| "not given")?;
    assert_eq!(rt; bytes.as_slice(), STORE_BUFFERING);
    assert!(rt; matches!(shelf.get(alloc, name, 43), Err(GetFault::TooLong)));
    fs::remove_file(&rt, name)?;
    assert!(rt; matches!(shelf.get(alloc, name, 44), Err(GetFault::Failed)));
    assert!(rt; StdSink::new(&rt).write_all(LINE).is_ok());
    Ok(())
}
