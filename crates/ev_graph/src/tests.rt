ghost use Rattle.std.specs.Prelude.{◌≡◌, ◌<◌, ℕ, IfOk, None};
ghost use Rattle.ev_graph.specs.StoreBuffering.{sb_write, sb_read, sb_thread, sb_entry, store_buffering as the_example};

use crate::*;
use std::alloc::Global;
use std::test::Fail;

/// No segments at all.
struct NoSegments;

impl StartMemory for NoSegments {
    ghost use Rattle.std.specs.Prelude.{None};

    ghost cells = { λ memory n. None };

    fn start_byte(&self, _address: u64) -> Option<u8> {
        None
    }

    fn allows(&self, _address: u64, size: u8, _write: bool) -> bool {
        size == 0
    }
}

fn write_of(thread: u32) -> Access
    ensures { thread < 2 → result ≡ sb_write thread }
{
    Access {
        id: EventId { thread, index: 0 },
        kind: AccessKind::Write,
        locked: false,
        address: 4096 + u64::from(thread),
        size: 1,
        value: 1,
        place: 0,
    }
}

fn read_of(thread: u32, value: u64) -> Access
    requires { thread < 2 }
    ensures { result ≡ sb_read thread value }
{
    Access {
        id: EventId { thread, index: 1 },
        kind: AccessKind::Read,
        locked: false,
        address: 4097 - u64::from(thread),
        size: 1,
        value,
        place: 4,
    }
}

fn thread_of(alloc: Global, thread: u32, value: u64) -> Result<ThreadRun, NoMemory>
    requires { thread < 2 }
    ensures { IfOk result (λ run. run ≡ sb_thread thread value None) }
{
    let items = vec![in alloc;
        Item::Access(write_of(thread)),
        Item::Access(read_of(thread, value)),
    ]?;
    Ok(ThreadRun {
        items: List::of(items),
        end: End::Halted,
    })
}

fn entry_of(alloc: Global, thread: u32) -> Result<ReadFrom, NoMemory>
    ensures { IfOk result (λ entry. entry ≡ sb_entry thread) }
{
    Ok(ReadFrom {
        read: EventId { thread, index: 1 },
        bytes: List::of(vec![in alloc; Source::Start]?),
    })
}

/// Store buffering, with this value read by both threads: 0 is what they read.
fn store_buffering(alloc: Global, value: u64) -> Result<Execution, NoMemory>
    ensures { IfOk result (λ x. x ≡ the_example value None) }
{
    let stacks = vec![in alloc;
        Stack { lo: 4096, hi: 8192 },
        Stack {
            lo: 8192,
            hi: 12288
        },
    ]?;
    let threads = vec![in alloc; thread_of(alloc, 0, value)?, thread_of(alloc, 1, value)?]?;
    let rf = vec![in alloc; entry_of(alloc, 0)?, entry_of(alloc, 1)?]?;
    let co = vec![in alloc;
        EventId {
            thread: 0,
            index: 0
        },
        EventId {
            thread: 1,
            index: 0
        },
    ]?;
    Ok(Execution {
        stacks: List::of(stacks),
        threads: List::of(threads),
        rf: List::of(rf),
        co: List::of(co),
        rmw: List::of(Vec::new(alloc)),
    })
}

#[test]
fn store_buffering_is_well_formed(rt: HostRuntime) -> Result<(), Fail> {
    let x = store_buffering(rt.alloc(), 0)?;
    assert_eq!(rt; well_formed(&x, &NoSegments), Ok(()));
    Ok(())
}

#[test]
fn a_read_of_another_value_is_no_start_byte(rt: HostRuntime) -> Result<(), Fail> {
    let x = store_buffering(rt.alloc(), 1)?;
    let read = EventId {
        thread: 0,
        index: 1,
    };
    let fault = FormFault::BadValue(ReadByte { read, byte: 0 });
    assert_eq!(rt; well_formed(&x, &NoSegments), Err(fault));
    Ok(())
}

#[test]
fn final_bytes_are_those_of_the_last_writes(rt: HostRuntime) -> Result<(), Fail> {
    let x = store_buffering(rt.alloc(), 0)?;
    assert_eq!(rt; final_byte(&x, &NoSegments, 4096), Some(1));
    assert_eq!(rt; final_byte(&x, &NoSegments, 4098), Some(0));
    assert_eq!(rt; final_byte(&x, &NoSegments, 12288), None);
    Ok(())
}

#[test]
fn accesses_overlap_where_they_have_a_byte_in_common(rt: HostRuntime) {
    assert!(rt; overlaps(&write_of(0), &read_of(1, 0)));
    assert!(rt; !overlaps(&write_of(0), &write_of(1)));
}

#[test]
fn a_list_gives_back_its_vec(rt: HostRuntime) -> Result<(), Fail> {
    let list = List::of(vec![in rt.alloc(); 1_u8, 2]?);
    assert_eq!(rt; list.as_slice(), [1, 2].as_slice());
    assert_eq!(rt; list.into_vec().len(), 2);
    Ok(())
}

#[test]
fn a_start_memory_answers(rt: HostRuntime) {
    assert_eq!(rt; NoSegments.start_byte(4096), None);
    assert!(rt; !NoSegments.allows(4096, 1, false));
}
