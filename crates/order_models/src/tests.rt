use crate::*;
use ev_graph::{Access, AccessKind, EventId, FenceItem, FenceKind, Item, List};
use std::alloc::{AllocError, Global};
use std::test::Fail;

fn access_of(index: u32, kind: AccessKind, locked: bool) -> Item {
    Item::Access(Access {
        id: EventId { thread: 0, index },
        kind,
        locked,
        address: 4096 + u64::from(index),
        size: 1,
        value: 1,
        place: 0,
    })
}

fn fence_of(kind: FenceKind) -> Item {
    Item::Fence(FenceItem { kind, place: 0 })
}

/// A thread that makes one access, a fence and another access.
fn thread_of(
    alloc: Global,
    first: AccessKind,
    fence: FenceKind,
    second: AccessKind,
) -> Result<List<Item>, AllocError> {
    let items = vec![in alloc;
        access_of(0, first, false),
        fence_of(fence),
        access_of(1, second, false),
    ]?;
    Ok(List::of(items))
}

/// The kind of the first and the last of three items, through the bound.
fn kind_of<M: OrderModel>(items: &List<Item>) -> Option<EdgeKind> {
    M::local(items, 0, 2)
}

#[test]
fn tso_keeps_all_but_a_write_before_a_read(rt: HostRuntime) -> Result<(), Fail> {
    let (read, write) = (AccessKind::Read, AccessKind::Write);
    let read_read = thread_of(rt.alloc(), read, FenceKind::Mfence, read)?;
    let write_read = thread_of(rt.alloc(), write, FenceKind::Mfence, read)?;
    let other_fence = thread_of(rt.alloc(), write, FenceKind::Frm, read)?;
    assert_eq!(rt; kind_of::<Tso>(&read_read), Some(EdgeKind::Ppo));
    assert_eq!(rt; kind_of::<Tso>(&write_read), Some(EdgeKind::Mfence));
    assert_eq!(rt; kind_of::<Tso>(&other_fence), None);
    Ok(())
}

#[test]
fn limm_keeps_what_its_fences_are_for(rt: HostRuntime) -> Result<(), Fail> {
    let (read, write) = (AccessKind::Read, AccessKind::Write);
    let behind_read = thread_of(rt.alloc(), read, FenceKind::Frm, write)?;
    let behind_write = thread_of(rt.alloc(), write, FenceKind::Frm, write)?;
    let writes = thread_of(rt.alloc(), write, FenceKind::Fww, write)?;
    let full = thread_of(rt.alloc(), write, FenceKind::Fsc, read)?;
    assert_eq!(rt; kind_of::<Limm>(&behind_read), Some(EdgeKind::Frm));
    assert_eq!(rt; kind_of::<Limm>(&behind_write), None);
    assert_eq!(rt; kind_of::<Limm>(&writes), Some(EdgeKind::Fww));
    assert_eq!(rt; kind_of::<Limm>(&full), Some(EdgeKind::Fsc));
    Ok(())
}

#[test]
fn arm_keeps_locked_pairs_and_full_fences_first(rt: HostRuntime) -> Result<(), Fail> {
    let (read, write) = (AccessKind::Read, AccessKind::Write);
    let full = thread_of(rt.alloc(), read, FenceKind::DmbFull, write)?;
    let behind_read = thread_of(rt.alloc(), read, FenceKind::DmbLd, write)?;
    let locked = List::of(vec![in rt.alloc();
        access_of(0, read, true),
        access_of(1, write, true),
    ]?);
    assert_eq!(rt; kind_of::<Arm>(&full), Some(EdgeKind::Dmb));
    assert_eq!(rt; kind_of::<Arm>(&behind_read), Some(EdgeKind::Ld));
    assert_eq!(rt; Arm::local(&locked, 0, 1), Some(EdgeKind::Rmw));
    assert_eq!(rt; Tso::local(&locked, 0, 1), Some(EdgeKind::Ppo));
    assert!(rt; Tso::INTERNAL && !Limm::INTERNAL && !Arm::INTERNAL);
    Ok(())
}

/// The kind of the last door, through the bound.
fn last_kind<M: OrderModel>() -> Option<EdgeKind> {
    if M::DOORS == 0 {
        return None;
    }
    Some(M::door(M::DOORS - 1).kind)
}

#[test]
fn each_order_has_its_doors(rt: HostRuntime) -> Result<(), Fail> {
    assert_eq!(rt; last_kind::<Tso>(), Some(EdgeKind::Implied));
    assert_eq!(rt; last_kind::<Limm>(), Some(EdgeKind::Rmw));
    assert_eq!(rt; last_kind::<Arm>(), Some(EdgeKind::Rmw));
    assert!(rt; matches!(Arm::door(0).opening, Opening::Fence(FenceKind::DmbLd)));
    assert!(rt; matches!(Arm::door(0).from, Side::Reads));
    assert!(rt; matches!(Tso::door(4).to, Side::Locked));
    Ok(())
}
