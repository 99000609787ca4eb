ghost use Rattle.std.specs.Prelude.{◌≡◌, ◌<◌, IfOk};
ghost use Rattle.exec_text.specs.Examples.{every_form as the_forms, form_read, form_thread, form_wide, form_write, sb_entry, sb_read, sb_thread, sb_write, store_buffering as the_example};

use crate::*;
use ev_graph::{
    Access, AccessKind, End, EventId, EventPair, Execution, FenceItem, FenceKind, Item, List,
    NoMemory, ReadFrom, Source, Stack, ThreadRun, Transfer,
};
use std::alloc::Global;
use std::test::Fail;

fn write_of(thread: u32) -> Access
    requires { thread < 2 }
    ensures { result ≡ sb_write thread }
{
    Access {
        id: EventId { thread, index: 0 },
        kind: AccessKind::Write,
        locked: false,
        address: 0x404000 + 8 * u64::from(thread),
        size: 8,
        value: 1,
        place: 0x40100f + 22 * u64::from(thread),
    }
}

fn read_of(thread: u32) -> Access
    requires { thread < 2 }
    ensures { result ≡ sb_read thread }
{
    Access {
        id: EventId { thread, index: 1 },
        kind: AccessKind::Read,
        locked: false,
        address: 0x404008 - 8 * u64::from(thread),
        size: 8,
        value: 0,
        place: 0x401012 + 22 * u64::from(thread),
    }
}

fn thread_of(alloc: Global, thread: u32) -> Result<ThreadRun, NoMemory>
    requires { thread < 2 }
    ensures { IfOk result (λ run. run ≡ sb_thread thread) }
{
    let items = vec![in alloc;
        Item::Access(write_of(thread)),
        Item::Access(read_of(thread)),
    ]?;
    Ok(ThreadRun {
        items: List::of(items),
        end: End::Running,
    })
}

fn entry_of(alloc: Global, thread: u32) -> Result<ReadFrom, NoMemory>
    ensures { IfOk result (λ entry. entry ≡ sb_entry thread) }
{
    let bytes = vec![in alloc;
        Source::Start,
        Source::Start,
        Source::Start,
        Source::Start,
        Source::Start,
        Source::Start,
        Source::Start,
        Source::Start,
    ]?;
    Ok(ReadFrom {
        read: EventId { thread, index: 1 },
        bytes: List::of(bytes),
    })
}

/// Store buffering.
fn store_buffering(alloc: Global) -> Result<Execution, NoMemory>
    ensures { IfOk result (λ x. x ≡ the_example) }
{
    let stacks = vec![in alloc;
        Stack {
            lo: 0x700000,
            hi: 0x710000
        },
        Stack {
            lo: 0x710000,
            hi: 0x720000
        },
    ]?;
    let threads = vec![in alloc; thread_of(alloc, 0)?, thread_of(alloc, 1)?]?;
    let rf = vec![in alloc; entry_of(alloc, 0)?, entry_of(alloc, 1)?]?;
    let co = vec![in alloc;
        EventId {
            thread: 0,
            index: 0
        },
        EventId {
            thread: 1,
            index: 0
        },
    ]?;
    Ok(Execution {
        stacks: List::of(stacks),
        threads: List::of(threads),
        rf: List::of(rf),
        co: List::of(co),
        rmw: List::of(Vec::new(alloc)),
    })
}

/// A locked read, the locked write after it, and a read of two bytes.
fn form_accesses() -> (Access, Access, Access)
    ensures { result ≡ (form_read, form_write, form_wide) }
{
    let read = Access {
        id: EventId {
            thread: 0,
            index: 0,
        },
        kind: AccessKind::Read,
        locked: true,
        address: 0x404000,
        size: 1,
        value: 0,
        place: 0x40100c,
    };
    let write = Access {
        id: EventId {
            thread: 0,
            index: 1,
        },
        kind: AccessKind::Write,
        value: 1,
        ..read
    };
    let wide = Access {
        id: EventId {
            thread: 0,
            index: 2,
        },
        locked: false,
        size: 2,
        value: 1,
        place: 0x401013,
        ..read
    };
    (read, write, wide)
}

fn form_thread_of(alloc: Global) -> Result<ThreadRun, NoMemory>
    ensures { IfOk result (λ run. run ≡ form_thread) }
{
    let (read, write, wide) = form_accesses();
    let items = vec![in alloc;
        Item::Input(Transfer {
            value: 0x2a,
            place: 0x401000
        }),
        Item::Access(read),
        Item::Access(write),
        Item::Fence(FenceItem {
            kind: FenceKind::Mfence,
            place: 0x401010
        }),
        Item::Access(wide),
        Item::Output(Transfer {
            value: 0x2a,
            place: 0x401017
        }),
    ]?;
    Ok(ThreadRun {
        items: List::of(items),
        end: End::Halted,
    })
}

/// An item of each form.
fn every_form(alloc: Global) -> Result<Execution, NoMemory>
    ensures { IfOk result (λ x. x ≡ the_forms) }
{
    let (read, write, wide) = form_accesses();
    let rf = vec![in alloc;
        ReadFrom {
            read: read.id,
            bytes: List::of(vec![in alloc; Source::Start]?),
        },
        ReadFrom {
            read: wide.id,
            bytes: List::of(vec![in alloc; Source::From(write.id), Source::Start]?),
        },
    ]?;
    Ok(Execution {
        stacks: List::of(vec![in alloc;
            Stack {
                lo: 0x700000,
                hi: 0x710000
            },
        ]?),
        threads: List::of(vec![in alloc; form_thread_of(alloc)?]?),
        rf: List::of(rf),
        co: List::of(vec![in alloc; write.id]?),
        rmw: List::of(vec![in alloc;
            EventPair {
                first: read.id,
                second: write.id
            },
        ]?),
    })
}

#[test]
fn prints_store_buffering(rt: HostRuntime) -> Result<(), Fail> {
    let text = print_exec(rt.alloc(), &store_buffering(rt.alloc())?)?;
    let lines =
        b"explained\nstack 0 700000 710000\nstack 1 710000 720000\nthread 0 running\n0.0 W 404000 8 1 @40100f\n0.1 R 404008 8 0 from init @401012\nthread 1 running\n1.0 W 404008 8 1 @401025\n1.1 R 404000 8 0 from init @401028\nco 0.0 1.0\nend\n";
    assert_eq!(rt; text.as_slice(), lines.as_slice());
    Ok(())
}

#[test]
fn prints_items_of_every_form(rt: HostRuntime) -> Result<(), Fail> {
    let text = print_exec(rt.alloc(), &every_form(rt.alloc())?)?;
    let lines =
        b"explained\nstack 0 700000 710000\nthread 0 halted\nin 2a @401000\n0.0 LR 404000 1 0 from init @40100c\n0.1 LW 404000 1 1 @40100c\nfence @401010\n0.2 R 404000 2 1 from 0.1,init @401013\nout 2a @401017\nco 0.1\nend\n";
    assert_eq!(rt; text.as_slice(), lines.as_slice());
    Ok(())
}
