ghost use Rattle.std.specs.Prelude.{◌≡◌, ◌<◌, IfOk, Some};
ghost use Rattle.ev_graph.specs.StoreBuffering.{sb_write, sb_read, sb_thread, sb_entry, store_buffering as the_example};

use crate::*;
use ev_graph::{
    Access, AccessKind, End, EventId, Execution, FenceItem, FenceKind, Item, List, NoMemory,
    ReadFrom, Source, Stack, ThreadRun,
};
use std::alloc::Global;
use std::test::Fail;
use x64_syntax::Marks;

fn write_of(thread: u32) -> Access
    ensures { result ≡ sb_write thread }
{
    Access {
        id: EventId { thread, index: 0 },
        kind: AccessKind::Write,
        locked: false,
        address: 4096 + u64::from(thread),
        size: 1,
        value: 1,
        place: 0,
    }
}

fn read_of(thread: u32) -> Access
    requires { thread < 2 }
    ensures { result ≡ sb_read thread 0 }
{
    Access {
        id: EventId { thread, index: 1 },
        kind: AccessKind::Read,
        locked: false,
        address: 4097 - u64::from(thread),
        size: 1,
        value: 0,
        place: 4,
    }
}

fn thread_of(alloc: Global, thread: u32, kind: FenceKind) -> Result<ThreadRun, NoMemory>
    requires { thread < 2 }
    ensures { IfOk result (λ run. run ≡ sb_thread thread 0 (Some kind)) }
{
    let fence = Item::Fence(FenceItem { kind, place: 2 });
    let (write, read) = (write_of(thread), read_of(thread));
    Ok(ThreadRun {
        items: List::of(vec![in alloc; Item::Access(write), fence, Item::Access(read)]?),
        end: End::Halted,
    })
}

fn entry_of(alloc: Global, thread: u32) -> Result<ReadFrom, NoMemory>
    ensures { IfOk result (λ entry. entry ≡ sb_entry thread) }
{
    Ok(ReadFrom {
        read: EventId { thread, index: 1 },
        bytes: List::of(vec![in alloc; Source::Start]?),
    })
}

/// Store buffering, with a fence of this kind in each thread.
fn store_buffering(alloc: Global, kind: FenceKind) -> Result<Execution, NoMemory>
    ensures { IfOk result (λ x. x ≡ the_example 0 (Some kind)) }
{
    let stacks = vec![in alloc;
        Stack { lo: 4096, hi: 8192 },
        Stack {
            lo: 8192,
            hi: 12288
        },
    ]?;
    let threads = vec![in alloc; thread_of(alloc, 0, kind)?, thread_of(alloc, 1, kind)?]?;
    let rf = vec![in alloc; entry_of(alloc, 0)?, entry_of(alloc, 1)?]?;
    let co = vec![in alloc;
        EventId {
            thread: 0,
            index: 0
        },
        EventId {
            thread: 1,
            index: 0
        },
    ]?;
    Ok(Execution {
        stacks: List::of(stacks),
        threads: List::of(threads),
        rf: List::of(rf),
        co: List::of(co),
        rmw: List::of(Vec::new(alloc)),
    })
}

/// Whether each thread makes a write, a fence of this kind and a read.
fn has_fences(x: &Execution, kind: FenceKind) -> bool {
    let fence = Item::Fence(FenceItem { kind, place: 2 });
    x.threads
        .as_slice()
        .iter()
        .all(|run| run.items.as_slice().get(1) == Some(&fence))
}

/// How many items the threads make in all.
fn item_count(x: &Execution, thread: usize) -> usize {
    match x.threads.as_slice().get(thread) {
        Some(run) => run.items.as_slice().len(),
        None => 0,
    }
}

#[test]
fn full_dmbs_become_full_fences(rt: HostRuntime) -> Result<(), Fail> {
    let x = arm_to_limm(store_buffering(rt.alloc(), FenceKind::DmbFull)?);
    assert!(rt; has_fences(&x, FenceKind::Fsc));
    assert_eq!(rt; item_count(&x, 0), 3);
    Ok(())
}

#[test]
fn full_fences_become_mfences(rt: HostRuntime) -> Result<(), Fail> {
    let private = Marks {
        slots: x64_syntax::List::of(Vec::new(rt.alloc())),
    };
    let x = limm_to_tso(store_buffering(rt.alloc(), FenceKind::Fsc)?, &private);
    assert!(rt; has_fences(&x, FenceKind::Mfence));
    assert_eq!(rt; item_count(&x, 1), 3);
    Ok(())
}

#[test]
fn other_fences_go(rt: HostRuntime) -> Result<(), Fail> {
    let private = Marks {
        slots: x64_syntax::List::of(Vec::new(rt.alloc())),
    };
    let x = limm_to_tso(store_buffering(rt.alloc(), FenceKind::Frm)?, &private);
    assert_eq!(rt; item_count(&x, 0), 2);
    assert_eq!(rt; x.rf.as_slice().len(), 2);
    Ok(())
}

#[test]
fn the_laws_are_proved() {
    arm_is_limm();
    limm_is_tso();
    arm_is_tso();
    private_is_needless();
    cycles_without_private();
    fewer_mfences();
    well_formed_has_sources();
}
