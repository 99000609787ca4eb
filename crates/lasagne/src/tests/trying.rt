use super::words;
use crate::{Status, run};
use lz_ports::{MemShelf, MemSink};
use std::alloc::Global;
use std::test::Fail;

/// What `try N` ends with and writes where these calls of the sink fail, and how many bytes it puts under `try.elf`.
#[derive(Drop)]
struct Tried {
    status: Status,
    taken: Vec<u8>,
    put: usize,
}

/// Runs `try` with this word on an empty shelf, of which these calls fail.
fn run_try(
    alloc: Global,
    number: &str,
    shelf_failing: &[u64],
    sink_failing: &[u64],
) -> Result<Tried, Fail> {
    let failing = Vec::from_slice(alloc, shelf_failing)?;
    let mut shelf = MemShelf::new(alloc, Vec::new(alloc), failing);
    let mut out = MemSink::new(alloc, Vec::from_slice(alloc, sink_failing)?);
    let status = run(
        alloc,
        &words(alloc, &["try", number])?,
        &mut shelf,
        &mut out,
    );
    Ok(Tried {
        status,
        taken: Vec::from_slice(alloc, out.taken())?,
        put: shelf.look("try.elf").map_or(0, |image| image.len()),
    })
}

#[test]
fn a_made_file_is_translated(rt: HostRuntime) -> Result<(), Fail> {
    let alloc = rt.alloc();
    let one =
        b"tried 1: 2 threads, 3 instructions, 1 blocks, 2 accesses, 1 private, 0 frm, 1 fww, 0 fsc\n";
    let four =
        b"tried 4: 2 threads, 7 instructions, 2 blocks, 4 accesses, 1 private, 0 frm, 1 fww, 2 fsc\n";
    for (number, line) in [("1", one), ("4", four)] {
        let told = run_try(alloc, number, &[], &[])?;
        assert_eq!(rt; told.status, Status::Done);
        assert_eq!(rt; told.taken.as_slice(), line.as_slice());
        assert!(rt; told.put > 0);
    }
    Ok(())
}

#[test]
fn failing_calls_of_try_are_told(rt: HostRuntime) -> Result<(), Fail> {
    let alloc = rt.alloc();
    let torn = run_try(alloc, "1", &[0], &[])?;
    assert_eq!(rt; torn.status, Status::WriteFailed);
    assert!(rt; torn.taken.is_empty());
    let whole = run_try(alloc, "1", &[], &[])?;
    assert_eq!(rt; whole.status, Status::Done);
    assert_eq!(rt; torn.put, whole.put / 2);
    let cut = run_try(alloc, "1", &[], &[0])?;
    assert_eq!(rt; cut.status, Status::OutFailed);
    assert_eq!(rt; cut.put, whole.put);
    assert!(rt; whole.taken.starts_with(cut.taken.as_slice()));
    Ok(())
}

#[test]
fn other_numbers_tell_usage(rt: HostRuntime) -> Result<(), Fail> {
    let alloc = rt.alloc();
    for number in [
        "0",
        "20001",
        "01",
        "",
        "+1",
        "1 ",
        "x",
        "100000",
        "18446744073709551617",
    ] {
        let told = run_try(alloc, number, &[], &[])?;
        assert_eq!(rt; told.status, Status::Usage);
        assert!(rt; told.taken.starts_with(b"usage: "));
        assert_eq!(rt; told.put, 0);
    }
    Ok(())
}
