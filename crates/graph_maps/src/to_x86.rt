ghost use Rattle.std.specs.Prelude.{◌≡◌, map, filter, true, false};
ghost use Rattle.ev_graph.specs.WellFormed.{HasLockedPairs};
ghost use Rattle.order_models.specs.Orders.{Limm, Tso};
ghost use Rattle.order_models.specs.Consistent.{Consistent};
ghost use Rattle.graph_maps.specs.Maps.{x86_kind, is_kept, x86_thread, is_private_in};
ghost use Rattle.graph_maps.specs.Needs.{HasFences, IsLimmFence, SameEvents, limm_fences, HasMappingFences, HasWriteSources, AreApart};

use crate::rename::{FenceMap, rename_all};
use ev_graph::{Execution, FenceKind, Item, List, ThreadRun};
use std::alloc::Global;
use std::mem;
use x64_syntax::Marks;

/// The fences of the intermediate form as those of x86.
struct ToX86;

impl FenceMap for ToX86 {
    ghost image = { x86_kind };

    fn image_of(kind: FenceKind) -> FenceKind {
        match kind {
            FenceKind::Fsc => FenceKind::Mfence,
            other => other,
        }
    }
}

/// Whether x86 keeps the item: all but the fences behind a read and between writes.
fn keeps(one: &Item) -> bool
    ensures { result ≡ is_kept one.now }
{
    match one {
        Item::Fence(fence) => !matches!(fence.kind, FenceKind::Frm | FenceKind::Fww),
        _ => true,
    }
}

fn drop_needless(items: &mut Vec<Item>)
    ensures { items.new.items ≡ filter is_kept items.old.items }
{
    items.retain(keeps);
}

fn map_thread(thread: &mut ThreadRun, alloc: Global)
    ensures { thread.new ≡ x86_thread thread.old }
{
    let mut items = mem::replace(&mut thread.items, List::of(Vec::new(alloc))).into_vec();
    drop_needless(&mut items);
    rename_all::<ToX86>(&mut items);
    thread.items = List::of(items);
}

fn map_threads(threads: &mut Vec<ThreadRun>)
    ensures { threads.new.items ≡ map x86_thread threads.old.items }
{
    let alloc = *threads.allocator();
    for thread in threads.iter_mut() {
        map_thread(thread, alloc);
    }
}

/// The execution with the fences of x86 in place of those of the intermediate form: `Mfence` for
/// `Fsc`, and none for `Frm` and `Fww`. All else stays, and no memory is taken.
///
/// `private` names the accesses that need no fences: an unlocked access is private where a slot has
/// its instruction's address and its kind.
pub fn limm_to_tso(x: Execution, private: &Marks) -> Execution
    requires fences { HasFences IsLimmFence x.threads }
    requires pairs { HasLockedPairs x }
    requires sources { HasWriteSources x }
    requires apart { AreApart (is_private_in private.now.slots x.threads) x.threads }
    requires mapped { HasMappingFences limm_fences (is_private_in private.now.slots x.threads) x }
    ensures renamed { result ≡ record x { threads = map x86_thread x.threads } }
    ensures same { SameEvents x result }
    ensures consistent { Consistent Limm false x → Consistent Tso true result }
{
    let Execution {
        stacks,
        threads,
        rf,
        co,
        rmw,
    } = x;
    let mut threads = threads.into_vec();
    map_threads(&mut threads);
    Execution {
        stacks,
        threads: List::of(threads),
        rf,
        co,
        rmw,
    }
}
