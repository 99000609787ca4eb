ghost use Rattle.std.specs.Prelude.{ℕ, List};
ghost use Rattle.ev_graph.specs.declared.events.Item.{Item as AnyItem};
ghost use Rattle.order_models.specs.Local.{IsFirst, IsPair};
ghost use Rattle.order_models.specs.Orders.{Limm as limm_order, limm_kinds};
ghost use Rattle.order_models.specs.Doors.{limm_doors};

use crate::pair::{Pair, pair_at};
use crate::{Door, EdgeKind, Opening, OrderModel, Side};
use ev_graph::{FenceKind, Item, List};

/// The intermediate form: a locked pair, a read before an Frm, writes around an Fww, or an Fsc between.
pub struct Limm;

impl OrderModel for Limm {
    ghost use Rattle.std.specs.Prelude.{false};
    ghost use Rattle.std.specs.Prelude.{refl};
    ghost use Rattle.std.proofs.Common.{lit≤};
    ghost use Rattle.order_models.specs.OwnKinds.{all_limm_kinds, own_limm_kinds};
    ghost use Rattle.order_models.specs.OwnDoors.{are_limm_doors};

    ghost order = { limm_order };

    ghost kinds = { limm_kinds };

    ghost doors = { limm_doors };

    ghost INTERNAL = { false };

    ghost DOORS = { 4 };

    const INTERNAL: bool = false;

    const DOORS: u32 = 4;

    fn local(items: &List<Item>, i: u32, j: u32) -> Option<EdgeKind> {
        limm_kind(&pair_at(items.as_slice(), i as usize, j as usize)?)
    }

    fn door(k: u32) -> Door {
        match k {
            0 => Door {
                opening: Opening::Fence(FenceKind::Frm),
                from: Side::Reads,
                to: Side::Any,
                kind: EdgeKind::Frm,
            },
            1 => Door {
                opening: Opening::Fence(FenceKind::Fww),
                from: Side::Writes,
                to: Side::Writes,
                kind: EdgeKind::Fww,
            },
            2 => Door {
                opening: Opening::Fence(FenceKind::Fsc),
                from: Side::Any,
                to: Side::Any,
                kind: EdgeKind::Fsc,
            },
            _ => Door {
                opening: Opening::Pair,
                from: Side::Any,
                to: Side::Any,
                kind: EdgeKind::Rmw,
            },
        }
    }

    ghost all_kinds = { all_limm_kinds };

    ghost own_kinds = { own_limm_kinds };

    ghost law_of_doors = { are_limm_doors };

    ghost door_count = { refl };

    ghost few_doors = { lit≤ tt };
}

fn limm_kind(pair: &Pair) -> Option<EdgeKind>
    ensures { (items : List AnyItem) (m n : ℕ) → IsPair items m n pair.now.first pair.now.second pair.now.between.now
        → IsFirst (λ kind. limm_order kind items m n) limm_kinds result }
{
    if pair.is_locked_pair() {
        Some(EdgeKind::Rmw)
    } else if pair.is_read_before(FenceKind::Frm) {
        Some(EdgeKind::Frm)
    } else if pair.are_writes_around(FenceKind::Fww) {
        Some(EdgeKind::Fww)
    } else if pair.has_fence(FenceKind::Fsc) {
        Some(EdgeKind::Fsc)
    } else {
        None
    }
}
