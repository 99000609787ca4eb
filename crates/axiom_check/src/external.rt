ghost use Rattle.std.specs.Prelude.{◌≡◌, ◌<◌, ◌^◌, [], IfOk, length};
ghost use Rattle.ev_graph.specs.WellFormed.{all_accesses};
ghost use Rattle.axiom_check.specs.Gains.{Gains};
ghost use Rattle.axiom_check.specs.Numbers.{AreNumbered};
ghost use Rattle.axiom_check.specs.External.{IsJudgeable, IsExternalSource, IsExternalTarget, IsExternalEdge};

use crate::bytes::{Writers, places_of, push_edges, push_reads, push_writes};
use crate::doors::push_threads;
use crate::events::Events;
use crate::lanes::Lanes;
use ev_graph::{Execution, NoMemory};
use order_models::OrderModel;
use std::alloc::Global;

/// The pairs of the axiom External, as lanes.
pub fn external<M: OrderModel>(
    alloc: Global,
    events: &Events,
    x: &Execution,
) -> Result<Lanes, NoMemory>
    requires judgeable { IsJudgeable x.now }
    requires all { events.now.accesses.items ≡ all_accesses x.now.threads }
    requires numbered { AreNumbered events.now.accesses.items events.now.firsts.items }
    ensures few { IfOk result (λ lanes. length x.now.co < 2 ^ 32) }
    ensures sources { IfOk result (λ lanes. Gains (IsExternalSource x.now events.now.accesses.items M.INTERNAL M.doors) [] lanes.sources.items) }
    ensures targets { IfOk result (λ lanes. Gains (IsExternalTarget x.now events.now.accesses.items M.doors) [] lanes.targets.items) }
    ensures direct { IfOk result (λ lanes. Gains (IsExternalEdge x.now events.now.accesses.items M.doors) [] lanes.direct.items) }
{
    let mut lanes = Lanes {
        direct: Vec::new(alloc),
        sources: Vec::new(alloc),
        targets: Vec::new(alloc),
    };
    let writers = Writers {
        threads: x.threads.as_slice().len() as u32,
        within: M::INTERNAL,
    };
    let co = x.co.as_slice();
    if u32::try_from(co.len()).is_err() {
        return Err(NoMemory);
    }
    let places = places_of(alloc, events, co)?;
    push_writes(&mut lanes.sources, &mut lanes.targets, events, writers, co)?;
    push_reads(
        &mut lanes.sources,
        events,
        places.as_slice(),
        writers,
        x.rf.as_slice(),
    )?;
    push_edges(&mut lanes.direct, events, false, x.rf.as_slice())?;
    push_threads::<M>(alloc, &mut lanes, events, x.threads.as_slice())?;
    Ok(lanes)
}
