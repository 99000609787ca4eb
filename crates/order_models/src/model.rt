ghost use Rattle.std.specs.Prelude.{◌≡◌, ◌<◌, ◌≤◌, ◌↔◌, ℕ, Bool, Some, IsSome, length, slice_get};
ghost use Rattle.order_models.specs.Local.{IsFirstLocal};
ghost use Rattle.order_models.specs.Doors.{AreAdmitted, AreDoorsOf};
ghost use Rattle.order_models.specs.Orders.{HasOwnKinds};

use crate::{Door, EdgeKind};
use ev_graph::{Item, List};

/// What a memory order keeps within a thread.
///
/// The same pairs are told in two ways: one by one, and as a few doors, of which each admits all pairs
/// between two sides.
pub trait OrderModel {
    ghost use Rattle.std.specs.Prelude.{List as Sequence};
    ghost use Rattle.ev_graph.specs.Places.{StandsIn};
    ghost use Rattle.ev_graph.specs.declared.events.Item.{Item};
    ghost use Rattle.order_models.specs.declared.doors.Door.{Door as AnyDoor};
    ghost use Rattle.order_models.specs.declared.edge.EdgeKind.{EdgeKind};

    // by the kind, which accesses of a thread are ordered
    ghost order: { EdgeKind → Sequence Item → ℕ → ℕ → Type 0 };

    // the order's own kinds, as the enum lists them
    ghost kinds: { Sequence EdgeKind };

    // the order's doors, by number
    ghost doors: { Sequence AnyDoor };

    ghost INTERNAL: { Bool };

    ghost DOORS: { ℕ };

    /// Whether fr and co within a thread belong to the axiom External.
    const INTERNAL: bool;

    /// How many doors the order has, at most 5.
    const DOORS: u32;

    /// The first of the order's own kinds, as the enum lists them, that the pair at two places has.
    ///
    /// None unless accesses stand at both, the first before the second, and the order keeps them.
    fn local(items: &List<Item>, i: u32, j: u32) -> Option<EdgeKind>
        ensures first { IsFirstLocal order kinds items.now i j result }
        ensures admitted { IsSome result ↔ AreAdmitted doors items.now i j };

    /// The door with this number.
    fn door(k: u32) -> Door
        requires { k < DOORS }
        ensures { slice_get doors k ≡ Some result };

    // the order has no kinds but its own
    ghost all_kinds: { (kind : EdgeKind) (items : Sequence Item) (m n : ℕ) → order kind items m n → StandsIn kinds kind };

    // its kinds are none of those of rf, fr and co
    ghost own_kinds: { HasOwnKinds order };

    // the order keeps what its doors admit
    ghost law_of_doors: { AreDoorsOf order doors };

    ghost door_count: { length doors ≡ DOORS };

    ghost few_doors: { DOORS ≤ 5 };
}
