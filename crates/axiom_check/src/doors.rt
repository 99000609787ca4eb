ghost use Rattle.std.specs.Prelude.{◌≡◌, ◌<◌, ◌+◌, ◌^◌, ℕ, OnOk, length};
ghost use Rattle.ev_graph.specs.Events.{accesses};
ghost use Rattle.axiom_check.specs.Gains.{Gains, Below};
ghost use Rattle.axiom_check.specs.Numbers.{AreNumbered};
ghost use Rattle.axiom_check.specs.Gates.{IsDoorSource, IsDoorTarget, IsDoorEdge, IsThreadSource, IsThreadTarget, IsThreadEdge};

use crate::events::{Events, push_accesses};
use crate::gates::{Gate, push_gate, push_pairs};
use crate::lanes::Lanes;
use ev_graph::{Access, Item, NoMemory, ThreadRun};
use order_models::{Door, Opening, OrderModel};
use std::alloc::Global;

/// What door k makes of a thread.
fn push_door(
    alloc: Global,
    lanes: &mut Lanes,
    events: &Events,
    items: &[Item],
    own: &[Access],
    door: Door,
    k: u32,
) -> Result<(), NoMemory>
    requires numbered { AreNumbered events.now.accesses.items events.now.firsts.items }
    requires own { accesses items.now ≡ own.now }
    requires few { k < 16 }
    requires fits { length own.now + 1 < 2 ^ 32 }
    ensures sources { OnOk result (Gains (IsDoorSource events.now.accesses.items items.now k door) lanes.old.sources.items lanes.new.sources.items) }
    ensures targets { OnOk result (Gains (IsDoorTarget events.now.accesses.items items.now k door) lanes.old.targets.items lanes.new.targets.items) }
    ensures direct { OnOk result (Gains (IsDoorEdge events.now.accesses.items items.now k door) lanes.old.direct.items lanes.new.direct.items) }
{
    let gate = Gate::of(alloc, items, door, 16 + k)?;
    if let Opening::Pair = door.opening {
        push_pairs(&mut lanes.direct, events, &gate, own)?;
        return Ok(());
    }
    push_gate(&mut lanes.sources, &mut lanes.targets, events, &gate, own)?;
    Ok(())
}

/// What the order's doors make of a thread.
fn push_doors<M: OrderModel>(
    alloc: Global,
    lanes: &mut Lanes,
    events: &Events,
    items: &[Item],
    own: &[Access],
) -> Result<(), NoMemory>
    requires numbered { AreNumbered events.now.accesses.items events.now.firsts.items }
    requires own { accesses items.now ≡ own.now }
    requires fits { length own.now + 1 < 2 ^ 32 }
    ensures sources { OnOk result (Gains (Below M.doors (IsDoorSource events.now.accesses.items items.now) (length M.doors)) lanes.old.sources.items lanes.new.sources.items) }
    ensures targets { OnOk result (Gains (Below M.doors (IsDoorTarget events.now.accesses.items items.now) (length M.doors)) lanes.old.targets.items lanes.new.targets.items) }
    ensures direct { OnOk result (Gains (Below M.doors (IsDoorEdge events.now.accesses.items items.now) (length M.doors)) lanes.old.direct.items lanes.new.direct.items) }
{
    for k in 0..M::DOORS {
        push_door(alloc, lanes, events, items, own, M::door(k), k)?;
    }
    Ok(())
}

/// What the order's doors make of a thread that ran.
fn push_thread<M: OrderModel>(
    alloc: Global,
    lanes: &mut Lanes,
    events: &Events,
    thread: &ThreadRun,
) -> Result<(), NoMemory>
    requires { AreNumbered events.now.accesses.items events.now.firsts.items }
    ensures sources { OnOk result ((t : ℕ) → Gains (IsThreadSource events.now.accesses.items M.doors t thread.now) lanes.old.sources.items lanes.new.sources.items) }
    ensures targets { OnOk result ((t : ℕ) → Gains (IsThreadTarget events.now.accesses.items M.doors t thread.now) lanes.old.targets.items lanes.new.targets.items) }
    ensures direct { OnOk result ((t : ℕ) → Gains (IsThreadEdge events.now.accesses.items M.doors t thread.now) lanes.old.direct.items lanes.new.direct.items) }
{
    let mut own = Vec::new(alloc);
    push_accesses(&mut own, thread.items.as_slice())?;
    if own.len() >= u32::MAX as usize {
        return Err(NoMemory);
    }
    push_doors::<M>(
        alloc,
        lanes,
        events,
        thread.items.as_slice(),
        own.as_slice(),
    )?;
    Ok(())
}

/// What the order's doors make of all threads.
pub fn push_threads<M: OrderModel>(
    alloc: Global,
    lanes: &mut Lanes,
    events: &Events,
    threads: &[ThreadRun],
) -> Result<(), NoMemory>
    requires { AreNumbered events.now.accesses.items events.now.firsts.items }
    ensures sources { OnOk result (Gains (Below threads.now (IsThreadSource events.now.accesses.items M.doors) (length threads.now)) lanes.old.sources.items lanes.new.sources.items) }
    ensures targets { OnOk result (Gains (Below threads.now (IsThreadTarget events.now.accesses.items M.doors) (length threads.now)) lanes.old.targets.items lanes.new.targets.items) }
    ensures direct { OnOk result (Gains (Below threads.now (IsThreadEdge events.now.accesses.items M.doors) (length threads.now)) lanes.old.direct.items lanes.new.direct.items) }
{
    for thread in threads {
        push_thread::<M>(alloc, lanes, events, thread)?;
    }
    Ok(())
}
