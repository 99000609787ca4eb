ghost use Rattle.std.specs.Prelude.{◌≡◌, map};
ghost use Rattle.graph_maps.specs.Maps.{renamed};

use ev_graph::{FenceKind, Item};

/// Fences of one kind in place of those of another.
pub trait FenceMap {
    ghost use Rattle.ev_graph.specs.declared.events.FenceKind.{FenceKind};

    ghost image: { FenceKind → FenceKind };

    fn image_of(kind: FenceKind) -> FenceKind
        ensures { result ≡ image kind };
}

fn rename<M: FenceMap>(one: &mut Item)
    ensures { one.new ≡ renamed M.image one.old }
{
    if let Item::Fence(fence) = one {
        fence.kind = M::image_of(fence.kind);
    }
}

/// Renames each fence in place.
pub fn rename_all<M: FenceMap>(items: &mut Vec<Item>)
    ensures { items.new.items ≡ map (renamed M.image) items.old.items }
{
    for one in items.iter_mut() {
        rename::<M>(one);
    }
}
