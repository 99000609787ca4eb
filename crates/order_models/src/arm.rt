ghost use Rattle.std.specs.Prelude.{ℕ, List};
ghost use Rattle.ev_graph.specs.declared.events.Item.{Item as AnyItem};
ghost use Rattle.order_models.specs.Local.{IsFirst, IsPair};
ghost use Rattle.order_models.specs.Orders.{Arm as arm_order, arm_kinds};
ghost use Rattle.order_models.specs.Doors.{arm_doors};

use crate::pair::{Pair, pair_at};
use crate::{Door, EdgeKind, Opening, OrderModel, Side};
use ev_graph::{FenceKind, Item, List};

/// Armv8: a locked pair, a full DMB between, a read before a DMB LD, or writes around a DMB ST.
pub struct Arm;

impl OrderModel for Arm {
    ghost use Rattle.std.specs.Prelude.{false};
    ghost use Rattle.std.specs.Prelude.{refl};
    ghost use Rattle.std.proofs.Common.{lit≤};
    ghost use Rattle.order_models.specs.OwnKinds.{all_arm_kinds, own_arm_kinds};
    ghost use Rattle.order_models.specs.OwnDoors.{are_arm_doors};

    ghost order = { arm_order };

    ghost kinds = { arm_kinds };

    ghost doors = { arm_doors };

    ghost INTERNAL = { false };

    ghost DOORS = { 4 };

    const INTERNAL: bool = false;

    const DOORS: u32 = 4;

    fn local(items: &List<Item>, i: u32, j: u32) -> Option<EdgeKind> {
        arm_kind(&pair_at(items.as_slice(), i as usize, j as usize)?)
    }

    fn door(k: u32) -> Door {
        match k {
            0 => Door {
                opening: Opening::Fence(FenceKind::DmbLd),
                from: Side::Reads,
                to: Side::Any,
                kind: EdgeKind::Ld,
            },
            1 => Door {
                opening: Opening::Fence(FenceKind::DmbSt),
                from: Side::Writes,
                to: Side::Writes,
                kind: EdgeKind::St,
            },
            2 => Door {
                opening: Opening::Fence(FenceKind::DmbFull),
                from: Side::Any,
                to: Side::Any,
                kind: EdgeKind::Dmb,
            },
            _ => Door {
                opening: Opening::Pair,
                from: Side::Any,
                to: Side::Any,
                kind: EdgeKind::Rmw,
            },
        }
    }

    ghost all_kinds = { all_arm_kinds };

    ghost own_kinds = { own_arm_kinds };

    ghost law_of_doors = { are_arm_doors };

    ghost door_count = { refl };

    ghost few_doors = { lit≤ tt };
}

fn arm_kind(pair: &Pair) -> Option<EdgeKind>
    ensures { (items : List AnyItem) (m n : ℕ) → IsPair items m n pair.now.first pair.now.second pair.now.between.now
        → IsFirst (λ kind. arm_order kind items m n) arm_kinds result }
{
    if pair.is_locked_pair() {
        Some(EdgeKind::Rmw)
    } else if pair.has_fence(FenceKind::DmbFull) {
        Some(EdgeKind::Dmb)
    } else if pair.is_read_before(FenceKind::DmbLd) {
        Some(EdgeKind::Ld)
    } else if pair.are_writes_around(FenceKind::DmbSt) {
        Some(EdgeKind::St)
    } else {
        None
    }
}
