ghost use Rattle.std.specs.Prelude.{ℕ, List};
ghost use Rattle.ev_graph.specs.declared.events.Item.{Item as AnyItem};
ghost use Rattle.order_models.specs.Local.{IsFirst, IsPair};
ghost use Rattle.order_models.specs.Orders.{Tso as tso_order, tso_kinds};
ghost use Rattle.order_models.specs.Doors.{tso_doors};

use crate::pair::{Pair, pair_at};
use crate::{Door, EdgeKind, Opening, OrderModel, Side};
use ev_graph::{FenceKind, Item, List};

/// x86-TSO: all but a write before a read, an MFENCE between, or a locked access at an end.
pub struct Tso;

impl OrderModel for Tso {
    ghost use Rattle.std.specs.Prelude.{true};
    ghost use Rattle.std.specs.Prelude.{refl};
    ghost use Rattle.std.proofs.Common.{lit≤};
    ghost use Rattle.order_models.specs.OwnKinds.{all_tso_kinds, own_tso_kinds};
    ghost use Rattle.order_models.specs.OwnDoors.{are_tso_doors};

    ghost order = { tso_order };

    ghost kinds = { tso_kinds };

    ghost doors = { tso_doors };

    ghost INTERNAL = { true };

    ghost DOORS = { 5 };

    const INTERNAL: bool = true;

    const DOORS: u32 = 5;

    fn local(items: &List<Item>, i: u32, j: u32) -> Option<EdgeKind> {
        tso_kind(&pair_at(items.as_slice(), i as usize, j as usize)?)
    }

    fn door(k: u32) -> Door {
        match k {
            0 => Door {
                opening: Opening::Always,
                from: Side::Reads,
                to: Side::Any,
                kind: EdgeKind::Ppo,
            },
            1 => Door {
                opening: Opening::Always,
                from: Side::Writes,
                to: Side::Writes,
                kind: EdgeKind::Ppo,
            },
            2 => Door {
                opening: Opening::Fence(FenceKind::Mfence),
                from: Side::Any,
                to: Side::Any,
                kind: EdgeKind::Mfence,
            },
            3 => Door {
                opening: Opening::Always,
                from: Side::Locked,
                to: Side::Any,
                kind: EdgeKind::Implied,
            },
            _ => Door {
                opening: Opening::Always,
                from: Side::Any,
                to: Side::Locked,
                kind: EdgeKind::Implied,
            },
        }
    }

    ghost all_kinds = { all_tso_kinds };

    ghost own_kinds = { own_tso_kinds };

    ghost law_of_doors = { are_tso_doors };

    ghost door_count = { refl };

    ghost few_doors = { lit≤ tt };
}

fn tso_kind(pair: &Pair) -> Option<EdgeKind>
    ensures { (items : List AnyItem) (m n : ℕ) → IsPair items m n pair.now.first pair.now.second pair.now.between.now
        → IsFirst (λ kind. tso_order kind items m n) tso_kinds result }
{
    if pair.reads_first() || pair.writes_second() {
        Some(EdgeKind::Ppo)
    } else if pair.has_fence(FenceKind::Mfence) {
        Some(EdgeKind::Mfence)
    } else if pair.is_locked() {
        Some(EdgeKind::Implied)
    } else {
        None
    }
}
