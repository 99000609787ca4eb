ghost use Rattle.std.specs.Prelude.{◌≡◌, ◌<◌, ◌≤◌, length, IfOk};
ghost use Rattle.elf_write.specs.Image.{IsImage};

use crate::{ReplayFault, ReplayKind, ReplayPlace, replay};
use elf_write::{Image, ImageSegment, code_address};
use ev_graph::{AccessKind, End, EventId, Execution, Item, List, Source};
use exec_text::read_exec;
use std::alloc::{AllocError, Global};
use std::test::Fail;

/// Where the code of the images stands.
const CODE: u64 = 0x41_0000;

/// Two threads, the second 12 words behind the first: each writes its cell, reads the other, and returns.
const STORE_BUFFERING: &[u32; 24] = &[
    0xD288_0007,
    0xF2A0_0807,
    0xD288_0106,
    0xF2A0_0806,
    0xD280_0020,
    0xF900_00E0,
    0xF940_00C0,
    0xF940_0090,
    0x9100_2084,
    0xB500_0050,
    0xD400_0061,
    0xD420_0060,
    0xD288_0107,
    0xF2A0_0807,
    0xD288_0006,
    0xF2A0_0806,
    0xD280_0020,
    0xF900_00E0,
    0xF940_00C0,
    0xF940_0090,
    0x9100_2084,
    0xB500_0050,
    0xD400_0061,
    0xD420_0060,
];

/// A return: the word at the stack pointer is 0 in a thread that halts.
const RETURN: &[u32; 5] = &[
    0xF940_0090,
    0x9100_2084,
    0xB500_0050,
    0xD400_0061,
    0xD420_0060,
];

/// A jump to itself.
const SILENT_LOOP: &[u32; 1] = &[0x1400_0000];

/// An exchange with the first cell, a barrier, and a return.
const EXCHANGE: &[u32; 10] = &[
    0xD288_0007,
    0xF2A0_0807,
    0xD280_0020,
    0xF820_80E0,
    0xD503_3BBF,
    0xF940_0090,
    0x9100_2084,
    0xB500_0050,
    0xD400_0061,
    0xD420_0060,
];

/// A comparing exchange with the first cell, which writes only where it holds 5, and a return.
const COMPARE: &[u32; 9] = &[
    0xD288_0007,
    0xF2A0_0807,
    0xD280_00A0,
    0xC8A0_7CE0,
    0xF940_0090,
    0x9100_2084,
    0xB500_0050,
    0xD400_0061,
    0xD420_0060,
];

/// A read of four bytes of the first cell, and a return.
const HALF: &[u32; 8] = &[
    0xD288_0007,
    0xF2A0_0807,
    0xB940_00E0,
    0xF940_0090,
    0x9100_2084,
    0xB500_0050,
    0xD400_0061,
    0xD420_0060,
];

/// An input, a barrier, an output, and a return.
const TRANSFER: &[u32; 8] = &[
    0xD400_0021,
    0xD503_3BBF,
    0xD400_0041,
    0xF940_0090,
    0x9100_2084,
    0xB500_0050,
    0xD400_0061,
    0xD420_0060,
];

/// A million instructions, and then a halt as the last of them.
const LONG: &[u32; 7] = &[
    0xD294_23D0,
    0xF2A0_00F0,
    0xD503_201F,
    0xD100_0610,
    0xB5FF_FFF0,
    0xD400_0061,
    0xD503_201F,
];

/// One instruction more.
const LONGER: &[u32; 7] = &[
    0xD294_23D0,
    0xF2A0_00F0,
    0xD503_201F,
    0xD503_201F,
    0xD100_0610,
    0xB5FF_FFF0,
    0xD400_0061,
];

/// A trap by division.
const DIVIDE: &[u32; 1] = &[0xD420_0020];

/// A read where no memory is.
const OUTSIDE: &[u32; 3] = &[0xD290_0007, 0xF2A0_0807, 0xF940_00E0];

/// An image with these words, threads that begin at these addresses, and eight cells at 404000.
fn image(alloc: Global, words: &[u32], threads: &[u64]) -> Result<Image, AllocError>
    requires some { 0 < length threads.now }
    requires few { length threads.now ≤ 16 }
    ensures { IfOk result IsImage }
{
    let cells = ImageSegment {
        address: 0x40_4000,
        size: 64,
        flags: 6,
        bytes: List::of(Vec::new(alloc)),
    };
    let segments = Vec::from_array(alloc, [cells])?;
    let code_address = code_address(segments.as_slice());
    Ok(Image {
        segments: List::of(segments),
        code_address,
        words: List::of(Vec::from_slice(alloc, words)?),
        threads: List::of(Vec::from_slice(alloc, threads)?),
    })
}

/// What the text gives for an image of these words and threads.
fn replayed(
    alloc: Global,
    words: &[u32],
    threads: &[u64],
    text: &str,
) -> Result<Result<Execution, ReplayFault>, Fail> {
    if threads.is_empty() || threads.len() > 16 || text.len() > 100_000 {
        return Err(Fail::from("too much"));
    }
    let image = image(alloc, words, threads)?;
    let file = read_exec(alloc, text.as_bytes())?;
    Ok(replay(alloc, &image, &file))
}

/// A text of one thread with a stack from 700000 to 710000.
fn one(alloc: Global, rest: &str) -> Result<String, AllocError> {
    format!(in alloc; "lasagne-exec 1\nstack 0 700000 710000\nthread 0 {rest}end\n")
}

/// Whether a thread of these words has this fault on the rest of a text.
fn has_fault(
    alloc: Global,
    words: &[u32],
    rest: &str,
    item: u32,
    kind: ReplayKind,
) -> Result<bool, Fail> {
    let text = one(alloc, rest)?;
    let place = ReplayPlace {
        thread: 0,
        item,
        kind,
    };
    match replayed(alloc, words, &[CODE], text.as_str())? {
        Ok(_) => Ok(false),
        Err(fault) => Ok(fault == ReplayFault::Run(place)),
    }
}

/// Whether a thread of these words is replayed on the rest of a text.
fn is_replayed(alloc: Global, words: &[u32], rest: &str) -> Result<bool, Fail> {
    let text = one(alloc, rest)?;
    Ok(replayed(alloc, words, &[CODE], text.as_str())?.is_ok())
}

/// The text of store buffering.
const BUFFERED: &str =
    "lasagne-exec 1\nstack 0 700000 710000\nstack 1 710000 720000\nthread 0 2 running\nr 0 init\nthread 1 2 running\nr 0 init\nco 0.0 1.0\nend\n";

#[test]
fn store_buffering_is_replayed(rt: HostRuntime) -> Result<(), Fail> {
    let x = replayed(rt.alloc(), STORE_BUFFERING, &[CODE, CODE + 48], BUFFERED)??;
    assert_eq!(rt; x.stacks.as_slice().len(), 2);
    assert_eq!(rt; x.co.as_slice().len(), 2);
    assert_eq!(rt; x.rmw.as_slice().len(), 0);
    let [first, second] = x.threads.as_slice() else {
        return Err(Fail::from("two threads"));
    };
    for (thread, own, other, place) in [
        (first, 0x40_4000u64, 0x40_4008u64, CODE + 20),
        (second, 0x40_4008, 0x40_4000, CODE + 68),
    ] {
        assert_eq!(rt; thread.end, End::Running);
        let [Item::Access(write), Item::Access(read)] = thread.items.as_slice() else {
            return Err(Fail::from("two accesses"));
        };
        assert_eq!(rt;
            (write.kind, write.address, write.size, write.value),
            (AccessKind::Write, own, 8, 1)
        );
        assert_eq!(rt;
            (read.kind, read.address, read.size, read.value),
            (AccessKind::Read, other, 8, 0)
        );
        assert_eq!(rt; (write.place, read.place), (place, place.wrapping_add(4)));
        assert_eq!(rt; (write.id.index, read.id.index), (0, 1));
    }
    let [entry, _] = x.rf.as_slice() else {
        return Err(Fail::from("two reads"));
    };
    assert_eq!(rt;
        entry.read,
        EventId {
            thread: 0,
            index: 1
        }
    );
    assert_eq!(rt; entry.bytes.as_slice(), [Source::Start; 8].as_slice());
    Ok(())
}

#[test]
fn layouts_are_judged(rt: HostRuntime) -> Result<(), Fail> {
    let alloc = rt.alloc();
    for (first, second, fault) in [
        ("700000 710000", "700000 710000", 1),
        ("700000 710000", "70fff0 720000", 1),
        ("700000 710000", "710000 800000000000", 2),
        ("700000 710000", "710000 800000000010", 1),
        ("700008 710000", "700000 710000", 0),
        ("700000 710008", "720000 730000", 0),
        ("700000 700000", "720000 730000", 0),
        ("404030 405000", "720000 730000", 0),
        ("404040 405000", "720000 730000", 2),
        ("400000 404000", "720000 730000", 2),
        ("400000 404010", "720000 730000", 0),
        ("410050 420000", "720000 730000", 0),
        ("410060 420000", "720000 730000", 2),
    ] {
        let text = format!(in alloc;
            "lasagne-exec 1\nstack 0 {first}\nstack 1 {second}\nthread 0 0 running\nthread 1 0 running\nco\nend\n"
        )?;
        match replayed(alloc, STORE_BUFFERING, &[CODE, CODE + 48], text.as_str())? {
            Ok(_) => assert_eq!(rt; fault, 2, "{first} {second}"),
            Err(found) => assert_eq!(rt; found, ReplayFault::Layout(fault), "{first} {second}"),
        }
    }
    let text = one(alloc, "0 running\nco\n")?;
    match replayed(alloc, STORE_BUFFERING, &[CODE, CODE + 48], text.as_str())? {
        Ok(_) => return Err(Fail::from("one stack for two threads")),
        Err(found) => assert_eq!(rt; found, ReplayFault::LayoutThreads),
    }
    Ok(())
}

#[test]
fn faults_are_told(rt: HostRuntime) -> Result<(), Fail> {
    let alloc = rt.alloc();
    let program = STORE_BUFFERING.as_slice();
    for (words, rest, item, kind) in [
        (
            program,
            "1 running\nr 0 init\nco 0.0\n",
            1,
            ReplayKind::Left,
        ),
        (program, "0 running\nr 0 init\nco\n", 0, ReplayKind::Left),
        (
            program,
            "3 running\nr 0 init\nco 0.0\n",
            2,
            ReplayKind::Values,
        ),
        (program, "2 running\nco 0.0\n", 1, ReplayKind::Values),
        (program, "2 running\ni 0\nco 0.0\n", 1, ReplayKind::Values),
        (program, "2 halted\nr 0 init\nco 0.0\n", 2, ReplayKind::More),
        (program, "0 halted\nco\n", 0, ReplayKind::More),
        (
            program,
            "2 running\nr 0 init,init\nco 0.0\n",
            1,
            ReplayKind::Sources,
        ),
        (
            program,
            "4 halted\nr 0 init\nr 0 init\nco 0.0\n",
            3,
            ReplayKind::Early,
        ),
        (DIVIDE.as_slice(), "1 running\nco\n", 0, ReplayKind::Early),
        (
            RETURN.as_slice(),
            "1 badreturn\nr 0 init\nco\n",
            1,
            ReplayKind::End,
        ),
        (
            RETURN.as_slice(),
            "1 halted\nr 8 init\nco\n",
            1,
            ReplayKind::End,
        ),
        (
            HALF.as_slice(),
            "1 running\nr 100000000 init\nco\n",
            0,
            ReplayKind::Wide,
        ),
        (
            HALF.as_slice(),
            "1 running\nr 100000000 init,init\nco\n",
            0,
            ReplayKind::Sources,
        ),
        (
            EXCHANGE.as_slice(),
            "1 running\nr 0 init\nco\n",
            1,
            ReplayKind::Split,
        ),
        (
            EXCHANGE.as_slice(),
            "1 running\nr 0 init\nr 0 init\nco\n",
            1,
            ReplayKind::Split,
        ),
        (
            COMPARE.as_slice(),
            "1 running\nr 5 init\nco\n",
            1,
            ReplayKind::Split,
        ),
        (
            TRANSFER.as_slice(),
            "1 running\nr 5 init\nco\n",
            0,
            ReplayKind::Values,
        ),
        (
            TRANSFER.as_slice(),
            "1 halted\ni 5\nco\n",
            1,
            ReplayKind::More,
        ),
        (
            TRANSFER.as_slice(),
            "2 halted\ni 5\nco\n",
            2,
            ReplayKind::More,
        ),
    ] {
        assert!(rt; has_fault(alloc, words, rest, item, kind)?, "{rest}");
    }
    Ok(())
}

#[test]
fn a_silent_loop_has_too_many_steps(rt: HostRuntime) -> Result<(), Fail> {
    let alloc = rt.alloc();
    let rest = "1 running\nr 0 init\nco\n";
    assert!(rt; has_fault(alloc, SILENT_LOOP, rest, 0, ReplayKind::Steps)?);
    Ok(())
}

#[test]
fn one_step_more_is_too_many(rt: HostRuntime) -> Result<(), Fail> {
    let alloc = rt.alloc();
    let rest = "0 halted\nco\n";
    assert!(rt; has_fault(alloc, LONGER, rest, 0, ReplayKind::Steps)?);
    Ok(())
}

#[test]
fn threads_are_cut_and_end(rt: HostRuntime) -> Result<(), Fail> {
    let alloc = rt.alloc();
    for (words, rest) in [
        (SILENT_LOOP.as_slice(), "0 running\nco\n"),
        (LONG.as_slice(), "0 halted\nco\n"),
        (DIVIDE.as_slice(), "0 divide\nco\n"),
        (OUTSIDE.as_slice(), "0 badaccess\nco\n"),
        (RETURN.as_slice(), "1 halted\nr 0 init\nco\n"),
        (RETURN.as_slice(), "1 badreturn\nr 8 init\nco\n"),
        (
            HALF.as_slice(),
            "1 running\nr ffffffff init,init,init,init\nco\n",
        ),
        (
            EXCHANGE.as_slice(),
            "3 halted\nr 0 init\nr 0 init\nco 0.1\n",
        ),
        (COMPARE.as_slice(), "1 running\nr 6 init\nco\n"),
        (COMPARE.as_slice(), "2 running\nr 5 init\nco\n"),
        (TRANSFER.as_slice(), "3 halted\ni 2a\nr 0 init\nco\n"),
    ] {
        assert!(rt; is_replayed(alloc, words, rest)?, "{rest}");
    }
    Ok(())
}

#[test]
fn locked_pairs_and_fences_are_kept(rt: HostRuntime) -> Result<(), Fail> {
    let alloc = rt.alloc();
    let text = one(alloc, "3 halted\nr 0 init\nr 0 init\nco 0.1\n")?;
    let x = replayed(alloc, EXCHANGE, &[CODE], text.as_str())??;
    let [pair] = x.rmw.as_slice() else {
        return Err(Fail::from("one pair"));
    };
    assert_eq!(rt; (pair.first.index, pair.second.index), (0, 1));
    let [thread] = x.threads.as_slice() else {
        return Err(Fail::from("one thread"));
    };
    assert_eq!(rt; thread.items.as_slice().len(), 4);
    let text = one(alloc, "2 running\nr 0 init\nco 0.1\n")?;
    let x = replayed(alloc, EXCHANGE, &[CODE], text.as_str())??;
    let [thread] = x.threads.as_slice() else {
        return Err(Fail::from("one thread"));
    };
    assert_eq!(rt; thread.items.as_slice().len(), 2);
    Ok(())
}
