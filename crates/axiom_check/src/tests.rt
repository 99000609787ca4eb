ghost use Rattle.std.specs.Prelude.{◌≡◌, ◌<◌, IfOk, None, Some, [], ◌∷◌};
ghost use Rattle.ev_graph.specs.StoreBuffering.{sb_write, sb_read, sb_thread, sb_entry, store_buffering as the_example};
ghost use Rattle.axiom_check.specs.External.{IsJudgeable};

use crate::*;
use ev_graph::{
    Access, AccessKind, End, EventId, Execution, FenceItem, FenceKind, Item, List, NoMemory,
    ReadFrom, Source, Stack, ThreadRun,
};
use order_models::{Arm, Limm, OrderModel, Tso};
use std::alloc::Global;
use std::test::Fail;

fn write_of(thread: u32) -> Access
    ensures { thread < 2 → result ≡ sb_write thread }
{
    Access {
        id: EventId { thread, index: 0 },
        kind: AccessKind::Write,
        locked: false,
        address: 4096 + u64::from(thread),
        size: 1,
        value: 1,
        place: 0,
    }
}

fn read_of(thread: u32) -> Access
    requires { thread < 2 }
    ensures { result ≡ sb_read thread 0 }
{
    Access {
        id: EventId { thread, index: 1 },
        kind: AccessKind::Read,
        locked: false,
        address: 4097 - u64::from(thread),
        size: 1,
        value: 0,
        place: 4,
    }
}

fn thread_of(alloc: Global, thread: u32) -> Result<ThreadRun, NoMemory>
    requires { thread < 2 }
    ensures { IfOk result (λ run. run ≡ sb_thread thread 0 None) }
{
    let items = vec![in alloc;
        Item::Access(write_of(thread)),
        Item::Access(read_of(thread)),
    ]?;
    Ok(ThreadRun {
        items: List::of(items),
        end: End::Halted,
    })
}

fn fenced_thread_of(alloc: Global, thread: u32, kind: FenceKind) -> Result<ThreadRun, NoMemory>
    requires { thread < 2 }
    ensures { IfOk result (λ run. run ≡ sb_thread thread 0 (Some kind)) }
{
    let items = vec![in alloc;
        Item::Access(write_of(thread)),
        Item::Fence(FenceItem { kind, place: 2 }),
        Item::Access(read_of(thread)),
    ]?;
    Ok(ThreadRun {
        items: List::of(items),
        end: End::Halted,
    })
}

fn entry_of(alloc: Global, thread: u32) -> Result<ReadFrom, NoMemory>
    ensures { IfOk result (λ entry. entry ≡ sb_entry thread) }
{
    Ok(ReadFrom {
        read: EventId { thread, index: 1 },
        bytes: List::of(vec![in alloc; Source::Start]?),
    })
}

/// What two threads that run so make, where both reads find the start.
fn both(alloc: Global, first: ThreadRun, second: ThreadRun) -> Result<Execution, NoMemory>
    ensures { IfOk result (λ x. x ≡ record (the_example 0 None) { threads = first ∷ second ∷ [] }) }
{
    let stacks = vec![in alloc;
        Stack { lo: 4096, hi: 8192 },
        Stack {
            lo: 8192,
            hi: 12288
        },
    ]?;
    let threads = vec![in alloc; first, second]?;
    let rf = vec![in alloc; entry_of(alloc, 0)?, entry_of(alloc, 1)?]?;
    let co = vec![in alloc;
        EventId {
            thread: 0,
            index: 0
        },
        EventId {
            thread: 1,
            index: 0
        },
    ]?;
    Ok(Execution {
        stacks: List::of(stacks),
        threads: List::of(threads),
        rf: List::of(rf),
        co: List::of(co),
        rmw: List::of(Vec::new(alloc)),
    })
}

/// Store buffering, in which both reads find the start.
#[tactic(auto, using(crate::proofs::StoreBufferingJudged::sb_judgeable))]
fn store_buffering(alloc: Global) -> Result<Execution, NoMemory>
    ensures is { IfOk result (λ x. x ≡ the_example 0 None) }
{
    both(alloc, thread_of(alloc, 0)?, thread_of(alloc, 1)?)
}

/// Store buffering with this fence in each thread.
fn fenced(alloc: Global, kind: FenceKind) -> Result<Execution, NoMemory>
    ensures is { IfOk result (λ x. x ≡ the_example 0 (Some kind)) }
{
    let first = fenced_thread_of(alloc, 0, kind)?;
    let second = fenced_thread_of(alloc, 1, kind)?;
    both(alloc, first, second)
}

/// How many accesses an order names, where there is one.
fn ordered<M: OrderModel>(alloc: Global, x: &Execution) -> Result<Option<usize>, NoMemory>
    requires { IsJudgeable x.now }
{
    Ok(order_of::<M>(alloc, x)?.map(|ids| ids.as_slice().len()))
}

/// What each order says of store buffering (Sewell et al., CACM 2010: x86-TSO allows it).
#[test]
#[tactic(auto, using(crate::proofs::StoreBufferingJudged::sb_judgeable))]
fn store_buffering_has_an_order(rt: HostRuntime) -> Result<(), Fail> {
    let x = store_buffering(rt.alloc())?;
    assert_eq!(rt; ordered::<Tso>(rt.alloc(), &x)?, Some(4));
    assert_eq!(rt; ordered::<Limm>(rt.alloc(), &x)?, Some(4));
    assert_eq!(rt; ordered::<Arm>(rt.alloc(), &x)?, Some(4));
    Ok(())
}

/// MFENCE, Fsc and a full DMB forbid it (Sewell et al.; Arm ARM DDI 0487, chapter B2).
#[test]
#[tactic(auto, using(crate::proofs::StoreBufferingJudged::sb_judgeable))]
fn full_fences_make_a_cycle(rt: HostRuntime) -> Result<(), Fail> {
    let with_mfence = fenced(rt.alloc(), FenceKind::Mfence)?;
    assert_eq!(rt; ordered::<Tso>(rt.alloc(), &with_mfence)?, None);
    let with_fsc = fenced(rt.alloc(), FenceKind::Fsc)?;
    assert_eq!(rt; ordered::<Limm>(rt.alloc(), &with_fsc)?, None);
    let with_dmb = fenced(rt.alloc(), FenceKind::DmbFull)?;
    assert_eq!(rt; ordered::<Arm>(rt.alloc(), &with_dmb)?, None);
    Ok(())
}

/// A write before a read is kept by no other fence.
#[test]
#[tactic(auto, using(crate::proofs::StoreBufferingJudged::sb_judgeable))]
fn smaller_fences_leave_an_order(rt: HostRuntime) -> Result<(), Fail> {
    let with_ld = fenced(rt.alloc(), FenceKind::DmbLd)?;
    assert_eq!(rt; ordered::<Arm>(rt.alloc(), &with_ld)?, Some(4));
    let with_st = fenced(rt.alloc(), FenceKind::DmbSt)?;
    assert_eq!(rt; ordered::<Arm>(rt.alloc(), &with_st)?, Some(4));
    let with_frm = fenced(rt.alloc(), FenceKind::Frm)?;
    assert_eq!(rt; ordered::<Limm>(rt.alloc(), &with_frm)?, Some(4));
    Ok(())
}

/// Whether there is an order, and its first access is the second of a thread.
fn begins_with_a_read(found: Option<List<EventId>>) -> bool {
    match found {
        Some(ids) => ids.as_slice().first().is_some_and(|id| id.index == 1),
        None => false,
    }
}

/// Each write overwrites what a read finds, so that no write is first.
#[test]
#[tactic(auto, using(crate::proofs::StoreBufferingJudged::sb_judgeable))]
fn a_read_is_first(rt: HostRuntime) -> Result<(), Fail> {
    let x = store_buffering(rt.alloc())?;
    assert!(rt; begins_with_a_read(order_of::<Arm>(rt.alloc(), &x)?));
    Ok(())
}
