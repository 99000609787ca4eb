ghost use Rattle.std.specs.Prelude.{◌≡◌, map, false};
ghost use Rattle.order_models.specs.Orders.{Arm, Limm};
ghost use Rattle.order_models.specs.Consistent.{Consistent};
ghost use Rattle.graph_maps.specs.Maps.{limm_kind, limm_thread};
ghost use Rattle.graph_maps.specs.Needs.{HasFences, IsDmb, SameEvents};

use crate::rename::{FenceMap, rename_all};
use ev_graph::{Execution, FenceKind, List, ThreadRun};
use std::alloc::Global;
use std::mem;

/// Arm's fences as those of the intermediate form.
struct ToLimm;

impl FenceMap for ToLimm {
    ghost image = { limm_kind };

    fn image_of(kind: FenceKind) -> FenceKind {
        match kind {
            FenceKind::DmbLd => FenceKind::Frm,
            FenceKind::DmbSt => FenceKind::Fww,
            FenceKind::DmbFull => FenceKind::Fsc,
            other => other,
        }
    }
}

fn rename_thread(thread: &mut ThreadRun, alloc: Global)
    ensures { thread.new ≡ limm_thread thread.old }
{
    let mut items = mem::replace(&mut thread.items, List::of(Vec::new(alloc))).into_vec();
    rename_all::<ToLimm>(&mut items);
    thread.items = List::of(items);
}

fn rename_threads(threads: &mut Vec<ThreadRun>)
    ensures { threads.new.items ≡ map limm_thread threads.old.items }
{
    let alloc = *threads.allocator();
    for thread in threads.iter_mut() {
        rename_thread(thread, alloc);
    }
}

/// The execution with the fences of the intermediate form in place of Arm's: `Frm` for DMB ISHLD,
/// `Fww` for DMB ISHST and `Fsc` for DMB ISH. All else stays, and no memory is taken.
pub fn arm_to_limm(x: Execution) -> Execution
    requires { HasFences IsDmb x.threads }
    ensures renamed { result ≡ record x { threads = map limm_thread x.threads } }
    ensures same { SameEvents x result }
    ensures consistent { Consistent Arm false x → Consistent Limm false result }
{
    let Execution {
        stacks,
        threads,
        rf,
        co,
        rmw,
    } = x;
    let mut threads = threads.into_vec();
    rename_threads(&mut threads);
    Execution {
        stacks,
        threads: List::of(threads),
        rf,
        co,
        rmw,
    }
}
