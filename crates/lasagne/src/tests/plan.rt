use super::{FENCED, ONE_THREAD, file_of, least_file, shelf_with, words};
use crate::{Status, run};
use lz_ports::MemSink;
use std::alloc::Global;
use std::test::Fail;

const LEAST_PLAN: &[u8] = b"block 401000\ngap none\n\
    planned 1 threads, 1 instructions, 1 blocks, 1 accesses, 1 private, 0 frm, 0 fww, 0 fsc\n";

/// What `plan a` ends with and writes for a file.
#[derive(Drop)]
struct Told {
    status: Status,
    taken: Vec<u8>,
}

/// The same where these calls of the shelf and of the sink fail. The file stays as it was.
fn planned(
    alloc: Global,
    bytes: Vec<u8>,
    shelf_calls: &[u64],
    sink_calls: &[u64],
) -> Result<Told, Fail> {
    let kept = Vec::from_slice(alloc, &bytes)?;
    let mut shelf = shelf_with(alloc, bytes, shelf_calls)?;
    let mut out = MemSink::new(alloc, Vec::from_slice(alloc, sink_calls)?);
    let status = run(alloc, &words(alloc, &["plan", "a"])?, &mut shelf, &mut out);
    if shelf.look("a") != Some(kept.as_slice()) {
        return Err("the file was changed".into());
    }
    Ok(Told {
        status,
        taken: Vec::from_slice(alloc, out.taken())?,
    })
}

/// Code at 401000, the listed symbols, and the text of the plan.
type Case = (&'static [u8], &'static [(&'static str, u64)], &'static [u8]);

const CASES: [Case; 7] = [
    (b"\xC3", ONE_THREAD, LEAST_PLAN),
    // ud2: a block without an access is one gap
    (
        b"\x0F\x0B",
        ONE_THREAD,
        b"block 401000\ngap none\n\
        planned 1 threads, 1 instructions, 1 blocks, 0 accesses, 0 private, 0 frm, 0 fww, 0 fsc\n",
    ),
    // mov edi, 404000; mov rax, [rdi]; mov [rdi], rax; ret
    (
        b"\xBF\0\x40\x40\0\x48\x8B\x07\x48\x89\x07\xC3",
        ONE_THREAD,
        b"block 401000\ngap none\n401005 R\ngap frm fww\n401008 W\ngap none\n\
        planned 1 threads, 4 instructions, 1 blocks, 3 accesses, 1 private, 1 frm, 1 fww, 0 fsc\n",
    ),
    // push rbx; call f; pop rbx; ret; f: ret
    (
        b"\x53\xE8\x02\0\0\0\x5B\xC3\xC3",
        ONE_THREAD,
        b"block 401000\ngap none\nblock 401006\ngap none\nblock 401008\ngap none\n\
        planned 1 threads, 5 instructions, 3 blocks, 5 accesses, 5 private, 0 frm, 0 fww, 0 fsc\n",
    ),
    // the same with an argument that points into the frame: lea rdi, [rsp + 8]
    (
        b"\x53\x48\x8D\x7C\x24\x08\xE8\x02\0\0\0\x5B\xC3\xC3",
        ONE_THREAD,
        b"block 401000\ngap fww\n401000 W\ngap fww\n401006 W\ngap none\n\
        block 40100b\ngap none\n40100b R\ngap frm\n40100c R\ngap frm\n\
        block 40100d\ngap none\n\
        planned 1 threads, 6 instructions, 3 blocks, 5 accesses, 1 private, 2 frm, 2 fww, 0 fsc\n",
    ),
    // mov edi, 404000; lock cmpxchg [rdi], rsi; ret, in two threads
    (
        b"\xBF\0\x40\x40\0\xF0\x48\x0F\xB1\x37\xC3",
        &[("thread_0", 0x401000), ("thread_1", 0x401000)],
        b"block 401000\ngap fsc\n401005 L\ngap fsc\n\
        planned 2 threads, 3 instructions, 1 blocks, 2 accesses, 1 private, 0 frm, 0 fww, 2 fsc\n",
    ),
    (
        FENCED,
        &[("thread_0", 0x401000), ("thread_1", 0x401019)],
        b"block 401000\ngap fww\n40100f W\ngap fsc\n401015 R\ngap frm\n\
        block 401019\ngap fww\n401028 W\ngap fsc\n40102e R\ngap frm\n\
        planned 2 threads, 14 instructions, 2 blocks, 6 accesses, 2 private, 2 frm, 2 fww, 2 fsc\n",
    ),
];

#[test]
fn plans_are_written(rt: HostRuntime) -> Result<(), Fail> {
    let alloc = rt.alloc();
    for (code, listed, text) in CASES {
        let told = planned(alloc, file_of(alloc, code, listed)?, &[], &[])?;
        assert_eq!(rt; told.taken.as_slice(), text);
        assert_eq!(rt; told.status, Status::Done);
    }
    Ok(())
}

#[test]
fn refused_files_have_no_plan(rt: HostRuntime) -> Result<(), Fail> {
    let alloc = rt.alloc();
    let told = planned(alloc, file_of(alloc, b"\xFF\xE0", ONE_THREAD)?, &[], &[])?;
    assert_eq!(rt; told.status, Status::Refused);
    assert_eq!(rt;
        told.taken.as_slice(),
        b"refused Indirect 401000\n".as_slice()
    );
    let failing = planned(alloc, file_of(alloc, b"\xFF\xE0", ONE_THREAD)?, &[], &[0])?;
    assert_eq!(rt; failing.status, Status::Refused);
    assert_eq!(rt; failing.taken.as_slice(), b"refused Indi".as_slice());
    Ok(())
}

#[test]
fn failing_calls_of_plan_are_told(rt: HostRuntime) -> Result<(), Fail> {
    let alloc = rt.alloc();
    let unread = planned(alloc, least_file(alloc)?, &[0], &[])?;
    assert_eq!(rt; unread.status, Status::ReadFailed);
    assert_eq!(rt; unread.taken.len(), 0);
    let cut = planned(alloc, least_file(alloc)?, &[], &[0])?;
    assert_eq!(rt; cut.status, Status::OutFailed);
    assert_eq!(rt; cut.taken.len(), LEAST_PLAN.len() / 2);
    assert!(rt; LEAST_PLAN.starts_with(cut.taken.as_slice()));
    Ok(())
}
