mod plan;
mod trying;

use crate::{Status, Word, run};
use elf_format::Symbol;
use ev_graph::List;
use gen_input::build;
use lz_ports::{MemShelf, MemSink, NamedFile};
use std::alloc::Global;
use std::test::Fail;

const LEAST_LINE: &[u8] =
    b"translated 1 threads, 1 instructions, 1 blocks, 1 accesses, 1 private, 0 frm, 0 fww, 0 fsc\n";

/// Parts of the least file's image: the program headers, of 401000 with flag R, of 404000 with R and W, and of twelve
/// words of code at 410000 with X alone; and the words, of the block: mov x16, x4; ldr x16, [x16]; mov x17, x4;
/// mov x23, #8; add x17, x17, x23; mov x4, x17; dmb ishld; mov x16, x16; b +1; and of all returns: cbnz x16, +2; svc #3; brk #3.
const IMAGE: [(usize, &[u8]); 4] = [
    (
        64,
        b"\x01\0\0\0\x04\0\0\0\0\x10\0\0\0\0\0\0\0\x10\x40\0\0\0\0\0\0\x10\x40\0\0\0\0\0\x01\0\0\0\0\0\0\0\x01\0\0\0\0\0\0\0\0\x10\0\0\0\0\0\0",
    ),
    (
        120,
        b"\x01\0\0\0\x06\0\0\0\0\x20\0\0\0\0\0\0\0\x40\x40\0\0\0\0\0\0\x40\x40\0\0\0\0\0\x40\0\0\0\0\0\0\0\x40\0\0\0\0\0\0\0\0\x10\0\0\0\0\0\0",
    ),
    (
        176,
        b"\x01\0\0\0\x01\0\0\0\0\x30\0\0\0\0\0\0\0\0\x41\0\0\0\0\0\0\0\x41\0\0\0\0\0\x2C\0\0\0\0\0\0\0\x2C\0\0\0\0\0\0\0\0\x10\0\0\0\0\0\0",
    ),
    (
        0x3000,
        b"\xF0\x03\x04\xAA\x10\x02\x40\xF9\xF1\x03\x04\xAA\x17\x01\x80\xD2\x31\x02\x17\x8B\xE4\x03\x11\xAA\xF0\x03\x10\xAA\x01\0\0\x14\x50\0\0\xB5\x61\0\0\xD4\x60\0\x20\xD4",
    ),
];

/// A file with this code at 401000, 64 zero cells at 404000, and symbols with these names and addresses.
fn file_of(alloc: Global, code: &[u8], listed: &[(&str, u64)]) -> Result<Vec<u8>, Fail> {
    let mut symbols = Vec::new(alloc);
    for (name, address) in listed {
        if name.len() > 32 {
            return Err("a name too long for a test".into());
        }
        symbols.push(Symbol {
            name: List::of(Vec::from_slice(alloc, name.as_bytes())?),
            address: *address,
        })?;
    }
    if code.len() > 0x1000 || symbols.len() > 40 {
        return Err("too much for a test".into());
    }
    Ok(build(alloc, code, &[0; 64], 0x404000, &symbols)?)
}

/// The least file: a return, 64 zero cells and one thread.
fn least_file(alloc: Global) -> Result<Vec<u8>, Fail> {
    file_of(alloc, b"\xC3", &[("thread_0", 0x401000)])
}

/// A shelf that holds these bytes under the name `a`.
fn shelf_with(alloc: Global, bytes: Vec<u8>, failing: &[u64]) -> Result<MemShelf, Fail> {
    let mut files = Vec::new(alloc);
    files.push(NamedFile {
        name: String::from_str(alloc, "a")?,
        bytes,
    })?;
    Ok(MemShelf::new(alloc, files, Vec::from_slice(alloc, failing)?))
}

fn words(alloc: Global, texts: &[&str]) -> Result<Vec<Word>, Fail> {
    let mut words = Vec::new(alloc);
    for text in texts {
        words.push(Word::new(String::from_str(alloc, text)?))?;
    }
    Ok(words)
}

/// What `translate a b` ends with and writes for a file, and whether it puts anything.
#[derive(Drop)]
struct Told {
    status: Status,
    taken: Vec<u8>,
    put: bool,
}

fn translated(alloc: Global, bytes: Vec<u8>) -> Result<Told, Fail> {
    let mut shelf = shelf_with(alloc, bytes, &[])?;
    let mut out = MemSink::new(alloc, Vec::new(alloc));
    let status = run(
        alloc,
        &words(alloc, &["translate", "a", "b"])?,
        &mut shelf,
        &mut out,
    );
    Ok(Told {
        status,
        taken: Vec::from_slice(alloc, out.taken())?,
        put: shelf.look("b").is_some(),
    })
}

#[test]
fn least_file_is_translated(rt: HostRuntime) -> Result<(), Fail> {
    let alloc = rt.alloc();
    let mut shelf = shelf_with(alloc, least_file(alloc)?, &[])?;
    let mut out = MemSink::new(alloc, Vec::new(alloc));
    let status = run(
        alloc,
        &words(alloc, &["translate", "a", "b"])?,
        &mut shelf,
        &mut out,
    );
    assert_eq!(rt; status, Status::Done);
    assert_eq!(rt; out.taken(), LEAST_LINE);
    let image = shelf.look("b").ok_or("no image")?;
    for (place, wanted) in IMAGE {
        let found = image
            .get(place..)
            .and_then(|tail| tail.get(..wanted.len()))
            .ok_or("short")?;
        assert_eq!(rt; found, wanted, "at {place}");
    }
    Ok(())
}

/// Store buffering: two threads that each write one cell and read the other's.
const STORE_BUFFERING: &[u8] =
    b"\xBF\0\x40\x40\0\xBE\x08\x40\x40\0\xB8\x01\0\0\0\x48\x89\x07\x48\x8B\x06\xC3\
    \xBF\x08\x40\x40\0\xBE\0\x40\x40\0\xB8\x01\0\0\0\x48\x89\x07\x48\x8B\x06\xC3";

/// The same with `mfence` before each read.
const FENCED: &[u8] =
    b"\xBF\0\x40\x40\0\xBE\x08\x40\x40\0\xB8\x01\0\0\0\x48\x89\x07\x0F\xAE\xF0\x48\x8B\x06\xC3\
    \xBF\x08\x40\x40\0\xBE\0\x40\x40\0\xB8\x01\0\0\0\x48\x89\x07\x0F\xAE\xF0\x48\x8B\x06\xC3";

#[test]
fn lines_are_translated(rt: HostRuntime) -> Result<(), Fail> {
    let alloc = rt.alloc();
    let cases: [(&[u8], &[(&str, u64)], &[u8]); 5] = [
        (
            b"\xBF\0\x40\x40\0\xB8\xFF\xFF\xFF\xFF\x48\x01\x07\x0F\x92\x47\x08\xC3",
            &[("thread_0", 0x401000)],
            b"translated 1 threads, 5 instructions, 1 blocks, 4 accesses, 1 private, 1 frm, 2 fww, 0 fsc\n",
        ),
        (
            b"\x0F\x0B",
            &[("thread_0", 0x401000)],
            b"translated 1 threads, 1 instructions, 1 blocks, 0 accesses, 0 private, 0 frm, 0 fww, 0 fsc\n",
        ),
        (
            b"\xBF\0\x40\x40\0\x48\x8B\x07\x48\x89\x07\xC3",
            &[("thread_0", 0x401000)],
            b"translated 1 threads, 4 instructions, 1 blocks, 3 accesses, 1 private, 1 frm, 1 fww, 0 fsc\n",
        ),
        (
            STORE_BUFFERING,
            &[("thread_0", 0x401000), ("thread_1", 0x401016)],
            b"translated 2 threads, 12 instructions, 2 blocks, 6 accesses, 2 private, 2 frm, 2 fww, 0 fsc\n",
        ),
        (
            FENCED,
            &[("thread_0", 0x401000), ("thread_1", 0x401019)],
            b"translated 2 threads, 14 instructions, 2 blocks, 6 accesses, 2 private, 2 frm, 2 fww, 2 fsc\n",
        ),
    ];
    for (code, listed, line) in cases {
        let told = translated(alloc, file_of(alloc, code, listed)?)?;
        assert_eq!(rt; told.status, Status::Done);
        assert_eq!(rt; told.taken.as_slice(), line);
    }
    Ok(())
}

#[test]
fn threads_share_an_address(rt: HostRuntime) -> Result<(), Fail> {
    let alloc = rt.alloc();
    let names = [
        "thread_0",
        "thread_1",
        "thread_2",
        "thread_3",
        "thread_4",
        "thread_5",
        "thread_6",
        "thread_7",
        "thread_8",
        "thread_9",
        "thread_10",
        "thread_11",
        "thread_12",
        "thread_13",
        "thread_14",
        "thread_15",
    ];
    let mut listed = Vec::new(alloc);
    for name in names {
        listed.push((name, 0x401000))?;
    }
    let told = translated(alloc, file_of(alloc, b"\xC3", &listed)?)?;
    assert_eq!(rt; told.status, Status::Done);
    assert_eq!(rt;
        told.taken.as_slice(),
        b"translated 16 threads, 1 instructions, 1 blocks, 1 accesses, 1 private, 0 frm, 0 fww, 0 fsc\n".as_slice()
    );
    Ok(())
}

/// Code at 401000, the listed symbols, and what is told.
type Case = (&'static [u8], &'static [(&'static str, u64)], &'static [u8]);

const ONE_THREAD: &[(&str, u64)] = &[("thread_0", 0x401000)];

#[test]
fn programs_are_translated(rt: HostRuntime) -> Result<(), Fail> {
    let alloc = rt.alloc();
    let cases: [Case; 11] = [
        // push rbx; call f; pop rbx; ret; f: ret
        (
            b"\x53\xE8\x02\0\0\0\x5B\xC3\xC3",
            ONE_THREAD,
            b"translated 1 threads, 5 instructions, 3 blocks, 5 accesses, 5 private, 0 frm, 0 fww, 0 fsc\n",
        ),
        // the same with an argument that points into the frame: lea rdi, [rsp + 8]
        (
            b"\x53\x48\x8D\x7C\x24\x08\xE8\x02\0\0\0\x5B\xC3\xC3",
            ONE_THREAD,
            b"translated 1 threads, 6 instructions, 3 blocks, 5 accesses, 1 private, 2 frm, 2 fww, 0 fsc\n",
        ),
        // f overwrites its return address: call f; ret; f: mov qword [rsp], 5; ret
        (
            b"\xE8\x01\0\0\0\xC3\x48\xC7\x04\x24\x05\0\0\0\xC3",
            ONE_THREAD,
            b"translated 1 threads, 4 instructions, 3 blocks, 4 accesses, 4 private, 0 frm, 0 fww, 0 fsc\n",
        ),
        // a listed call and a listed jump: call input; mov rdi, rax; jmp output
        (
            b"\xE8\x08\0\0\0\x48\x89\xC7\xE9\x01\0\0\0\xC3\xC3",
            &[
                ("thread_0", 0x401000),
                ("lsg_input", 0x40100D),
                ("lsg_output", 0x40100E),
            ],
            b"translated 1 threads, 3 instructions, 2 blocks, 2 accesses, 2 private, 0 frm, 0 fww, 0 fsc\n",
        ),
        // a loop: mov ecx, 3; again: dec rcx; jne again; ret
        (
            b"\xB9\x03\0\0\0\x48\xFF\xC9\x75\xFB\xC3",
            ONE_THREAD,
            b"translated 1 threads, 4 instructions, 3 blocks, 1 accesses, 1 private, 0 frm, 0 fww, 0 fsc\n",
        ),
        // a loop without an end, and so no return site: jmp 401000
        (
            b"\xEB\xFE",
            ONE_THREAD,
            b"translated 1 threads, 1 instructions, 1 blocks, 0 accesses, 0 private, 0 frm, 0 fww, 0 fsc\n",
        ),
        // calls in calls: call f; ret; f: call g; ret; g: ret
        (
            b"\xE8\x01\0\0\0\xC3\xE8\x01\0\0\0\xC3\xC3",
            ONE_THREAD,
            b"translated 1 threads, 5 instructions, 5 blocks, 5 accesses, 5 private, 0 frm, 0 fww, 0 fsc\n",
        ),
        // recursion: call 401000; ret
        (
            b"\xE8\xFB\xFF\xFF\xFF\xC3",
            ONE_THREAD,
            b"translated 1 threads, 2 instructions, 2 blocks, 2 accesses, 2 private, 0 frm, 0 fww, 0 fsc\n",
        ),
        // a tail jump: call f; ret; (not reached); f: jmp g; (not reached); g: ret
        (
            b"\xE8\x02\0\0\0\xC3\xCC\xEB\x01\xCC\xC3",
            ONE_THREAD,
            b"translated 1 threads, 4 instructions, 4 blocks, 3 accesses, 3 private, 0 frm, 0 fww, 0 fsc\n",
        ),
        // two threads call one function, and a third begins with it
        (
            b"\xE8\x07\0\0\0\xC3\xE8\x01\0\0\0\xC3\xC3",
            &[
                ("thread_0", 0x401000),
                ("thread_1", 0x401006),
                ("thread_2", 0x40100C),
            ],
            b"translated 3 threads, 5 instructions, 5 blocks, 5 accesses, 5 private, 0 frm, 0 fww, 0 fsc\n",
        ),
        // fourteen prefixes: as long as an instruction may be
        (
            b"\x66\x66\x66\x66\x66\x66\x66\x66\x66\x66\x66\x66\x66\x66\x90\xC3",
            ONE_THREAD,
            b"translated 1 threads, 2 instructions, 1 blocks, 1 accesses, 1 private, 0 frm, 0 fww, 0 fsc\n",
        ),
    ];
    for (code, listed, line) in cases {
        let told = translated(alloc, file_of(alloc, code, listed)?)?;
        assert_eq!(rt; told.taken.as_slice(), line);
        assert_eq!(rt; told.status, Status::Done);
    }
    Ok(())
}

/// A spinlock that XCHG takes, a counter behind it, and an output: what a C compiler makes of it.
const SPINLOCK: &[u8] =
    b"\xF3\x0F\x1E\xFA\x53\xBB\x01\0\0\0\x89\xD8\x48\x87\x05\xED\x2F\0\0\x48\x85\xC0\x74\x04\
    \xF3\x90\xEB\xEE\x48\x8B\x1D\xE5\x2F\0\0\x48\x83\xC3\x01\x48\x89\x1D\xDA\x2F\0\0\x48\x89\xDF\
    \xE8\x0D\0\0\0\x48\xC7\x05\xBF\x2F\0\0\0\0\0\0\x5B\xC3\xC3";

#[test]
fn locks_products_and_divisions_are_translated(rt: HostRuntime) -> Result<(), Fail> {
    let alloc = rt.alloc();
    let cases: [Case; 6] = [
        // mov edi, 404000; mov eax, 1; xchg [rdi], rax; ret, in two threads
        (
            b"\xBF\0\x40\x40\0\xB8\x01\0\0\0\x48\x87\x07\xC3",
            &[("thread_0", 0x401000), ("thread_1", 0x401000)],
            b"translated 2 threads, 4 instructions, 1 blocks, 2 accesses, 1 private, 0 frm, 0 fww, 2 fsc\n",
        ),
        // mov edi, 404000; lock cmpxchg [rdi], rsi; ret, in two threads
        (
            b"\xBF\0\x40\x40\0\xF0\x48\x0F\xB1\x37\xC3",
            &[("thread_0", 0x401000), ("thread_1", 0x401000)],
            b"translated 2 threads, 3 instructions, 1 blocks, 2 accesses, 1 private, 0 frm, 0 fww, 2 fsc\n",
        ),
        (
            SPINLOCK,
            &[
                ("thread_0", 0x401000),
                ("thread_1", 0x401000),
                ("thread_2", 0x401000),
                ("thread_3", 0x401000),
                ("lsg_output", 0x401043),
            ],
            b"translated 4 threads, 17 instructions, 5 blocks, 8 accesses, 4 private, 1 frm, 2 fww, 2 fsc\n",
        ),
        // imul eax, edi; test eax, eax; je; ret: the flags are defined again before one is read
        (
            b"\x0F\xAF\xC7\x85\xC0\x74\0\xC3",
            ONE_THREAD,
            b"translated 1 threads, 4 instructions, 2 blocks, 1 accesses, 1 private, 0 frm, 0 fww, 0 fsc\n",
        ),
        // mov edx, 80000000; mov edi, -1; idiv edi; ret
        (
            b"\xBA\0\0\0\x80\xBF\xFF\xFF\xFF\xFF\xF7\xFF\xC3",
            ONE_THREAD,
            b"translated 1 threads, 4 instructions, 1 blocks, 1 accesses, 1 private, 0 frm, 0 fww, 0 fsc\n",
        ),
        // mov eax, 80000000; cdq; mov edi, -1; idiv edi; ret
        (
            b"\xB8\0\0\0\x80\x99\xBF\xFF\xFF\xFF\xFF\xF7\xFF\xC3",
            ONE_THREAD,
            b"translated 1 threads, 5 instructions, 1 blocks, 1 accesses, 1 private, 0 frm, 0 fww, 0 fsc\n",
        ),
    ];
    for (code, listed, line) in cases {
        let told = translated(alloc, file_of(alloc, code, listed)?)?;
        assert_eq!(rt; told.taken.as_slice(), line);
        assert_eq!(rt; told.status, Status::Done);
    }
    Ok(())
}

#[test]
fn other_files_are_refused(rt: HostRuntime) -> Result<(), Fail> {
    let alloc = rt.alloc();
    let cases: [Case; 14] = [
        // jmp rax
        (b"\xFF\xE0", ONE_THREAD, b"refused Indirect 401000\n"),
        // cmp edi, 5; ja 401032; mov edi, edi; jmp [8 * rdi + 404000], whose cells may be written
        (
            b"\x83\xFF\x05\x77\x2D\x89\xFF\xFF\x24\xFD\0\x40\x40\0\xC3\
            \x90\x90\x90\x90\x90\x90\x90\x90\x90\x90\x90\x90\x90\x90\x90\x90\x90\x90\
            \x90\x90\x90\x90\x90\x90\x90\x90\x90\x90\x90\x90\x90\x90\x90\x90\x90\x90\xC3",
            ONE_THREAD,
            b"refused Indirect 401007\n",
        ),
        // div rdi: division of 128 bits by 64
        (
            b"\x48\xF7\xF7\xC3",
            ONE_THREAD,
            b"refused BadCode 401000 Unknown\n",
        ),
        // imul eax, edi; je, on a flag that is undefined
        (
            b"\x0F\xAF\xC7\x74\0\xC3",
            ONE_THREAD,
            b"refused UndefinedFlag 401003\n",
        ),
        (
            b"\x48\x89\xD1",
            ONE_THREAD,
            b"refused BadCode 401003 Outside\n",
        ),
        (
            b"\xBF\0\x40\x40",
            ONE_THREAD,
            b"refused BadCode 401000 Cut\n",
        ),
        (b"\x06\xC3", ONE_THREAD, b"refused BadCode 401000 Unknown\n"),
        (
            b"\x66\x66\x66\x66\x66\x66\x66\x66\x66\x66\x66\x66\x66\x66\x66\x90\xC3",
            ONE_THREAD,
            b"refused BadCode 401000 TooLong\n",
        ),
        // jmp 404000
        (
            b"\xE9\xFB\x2F\0\0",
            ONE_THREAD,
            b"refused BadCode 404000 Outside\n",
        ),
        // jmp 401001, into itself
        (b"\xEB\xFF\xC0\xC3", ONE_THREAD, b"refused Overlap 401001\n"),
        // the second thread begins within the first instruction of the first
        (
            b"\x48\xB8\xC3\0\0\0\0\0\0\0\xC3",
            &[("thread_0", 0x401000), ("thread_1", 0x401002)],
            b"refused Overlap 401002\n",
        ),
        (
            b"\xC3",
            &[("thread_0", 0x401000), ("lsg_input", 0x401000)],
            b"refused BadCode 401000 Listed\n",
        ),
        (b"\xC3", &[("thread_1", 0x401000)], b"refused NoThread\n"),
        (
            b"\xC3",
            &[("thread_0", 0x401000), ("thread_0", 0x401000)],
            b"refused DoubleName 2\n",
        ),
    ];
    for (code, listed, line) in cases {
        let told = translated(alloc, file_of(alloc, code, listed)?)?;
        assert_eq!(rt; told.taken.as_slice(), line);
        assert_eq!(rt; told.status, Status::Refused);
        assert!(rt; !told.put);
    }
    Ok(())
}

/// A file of so many NOPs and a return behind them, with its cells at 800000.
fn long_file(alloc: Global, nops: usize) -> Result<Vec<u8>, Fail> {
    if nops > 0x1_0000 {
        return Err("too much for a test".into());
    }
    let mut code = vec![in alloc; 0x90; nops]?;
    code.push(0xC3)?;
    let symbols = [Symbol {
        name: List::of(Vec::from_slice(alloc, b"thread_0")?),
        address: 0x401000,
    }];
    Ok(build(alloc, &code, &[0; 64], 0x800000, &symbols)?)
}

#[test]
fn as_much_code_as_may_be_is_translated(rt: HostRuntime) -> Result<(), Fail> {
    let alloc = rt.alloc();
    let most = translated(alloc, long_file(alloc, 0xFFFF)?)?;
    assert_eq!(rt;
        most.taken.as_slice(),
        b"translated 1 threads, 65536 instructions, 1 blocks, 1 accesses, 1 private, 0 frm, 0 fww, 0 fsc\n".as_slice()
    );
    let more = translated(alloc, long_file(alloc, 0x1_0000)?)?;
    assert_eq!(rt; more.taken.as_slice(), b"refused TooMuchCode\n".as_slice());
    assert!(rt; !more.put);
    Ok(())
}

/// What a prefix of the least file with so many bytes is told.
fn told_of_cut(length: usize) -> &'static [u8] {
    match length {
        0..=63 => b"refused Short\n",
        64..=175 => b"refused ProgramTable\n",
        176..=4096 => b"refused Segment 0\n",
        4097..=8255 => b"refused Segment 1\n",
        8256..=16_575 => b"refused SymbolTable\n",
        _ => LEAST_LINE,
    }
}

#[test]
fn cut_files_are_refused(rt: HostRuntime) -> Result<(), Fail> {
    let alloc = rt.alloc();
    let whole = least_file(alloc)?;
    for length in 0..=whole.len() {
        let cut = Vec::from_slice(alloc, whole.get(..length).unwrap_or(&[]))?;
        let told = translated(alloc, cut)?;
        assert_eq!(rt;
            told.taken.as_slice(),
            told_of_cut(length),
            "of {length} bytes"
        );
        assert_eq!(rt; told.put, length == 16_576);
    }
    Ok(())
}

#[test]
fn changed_fields_are_refused(rt: HostRuntime) -> Result<(), Fail> {
    let alloc = rt.alloc();
    let cases: [(usize, &[u8], &[u8]); 12] = [
        (0, b"\x7E", b"refused Magic\n"),
        (4, b"\x01", b"refused Class\n"),
        (16, b"\x03", b"refused BadType 3\n"),
        (18, b"\xB7", b"refused Machine 183\n"),
        (56, b"\x41", b"refused ProgramTable\n"),
        (120, b"\x03", b"refused ProgramTable\n"),
        (
            128,
            b"\xFF\xFF\xFF\xFF\xFF\xFF\xFF\xFF",
            b"refused Segment 1\n",
        ),
        (124, b"\x03", b"refused Segment 1\n"),
        (136, b"\0\0\0\0\0\x40\0\0", b"refused Segment 1\n"),
        (160, b"\0\0\0\x10\0\0\0\0", b"refused TooBig\n"),
        (160, b"\xFF\xFF\xFF\x0F\0\0\0\0", LEAST_LINE),
        (0x3018, b"\x0A", b"refused SymbolTable\n"),
    ];
    for (offset, field, line) in cases {
        let mut bytes = least_file(alloc)?;
        for (place, byte) in field.iter().enumerate() {
            if let Some(cell) = bytes.get_mut(offset.saturating_add(place)) {
                *cell = *byte;
            }
        }
        let told = translated(alloc, bytes)?;
        assert_eq!(rt; told.taken.as_slice(), line, "at {offset}");
    }
    Ok(())
}

#[test]
fn words_of_no_command_tell_usage(rt: HostRuntime) -> Result<(), Fail> {
    let alloc = rt.alloc();
    let cases: [&[&str]; 5] = [
        &[],
        &["translate", "a"],
        &["plan"],
        &["plan", "a", "b"],
        &["translate", "a", "b", "c"],
    ];
    for texts in cases {
        let mut shelf = shelf_with(alloc, least_file(alloc)?, &[])?;
        let mut out = MemSink::new(alloc, Vec::new(alloc));
        let status = run(alloc, &words(alloc, texts)?, &mut shelf, &mut out);
        assert_eq!(rt; status, Status::Usage);
        assert_eq!(rt;
            out.taken(),
            b"usage: lasagne translate IN OUT, match IN OUT EXEC, plan IN, try N\n".as_slice()
        );
    }
    Ok(())
}

#[test]
fn failing_calls_are_told(rt: HostRuntime) -> Result<(), Fail> {
    let alloc = rt.alloc();
    for (shelf_call, sink_call, wanted, kept, taken) in [
        (0, 9, Status::ReadFailed, 0, 0),
        (1, 9, Status::WriteFailed, 6_340, 0),
        (9, 0, Status::OutFailed, 12_680, LEAST_LINE.len() / 2),
    ] {
        let mut shelf = shelf_with(alloc, least_file(alloc)?, &[shelf_call])?;
        let mut out = MemSink::new(alloc, Vec::from_slice(alloc, &[sink_call])?);
        let status = run(
            alloc,
            &words(alloc, &["translate", "a", "b"])?,
            &mut shelf,
            &mut out,
        );
        assert_eq!(rt; status, wanted);
        assert_eq!(rt; shelf.look("b").map_or(0, |image| image.len()), kept);
        assert_eq!(rt; out.taken().len(), taken);
    }
    Ok(())
}

#[test]
fn image_may_replace_its_input(rt: HostRuntime) -> Result<(), Fail> {
    let alloc = rt.alloc();
    let mut shelf = shelf_with(alloc, least_file(alloc)?, &[])?;
    let mut out = MemSink::new(alloc, Vec::new(alloc));
    let texts = words(alloc, &["translate", "a", "a"])?;
    assert_eq!(rt; run(alloc, &texts, &mut shelf, &mut out), Status::Done);
    assert_eq!(rt; run(alloc, &texts, &mut shelf, &mut out), Status::Refused);
    assert!(rt; out.taken().ends_with(b"refused Machine 183\n"));
    Ok(())
}
