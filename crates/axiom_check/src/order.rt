ghost use Rattle.std.specs.Prelude.{◌≡◌, IfOk, MatchOption, filter, nat_lt};
ghost use Rattle.topo.specs.Order.{HasCycle};
ghost use Rattle.axiom_check.specs.Lanes.{AreBelow, AreOfEvents, Crosses, HasRound, IsOrderOf, IsEventsOf};

use crate::lanes::{Graph, Lanes};
use ev_graph::NoMemory;
use std::alloc::Global;
use topo::{TopoAnswer, order_or_cycle};

impl Graph {
    /// The events in an order in which every way through the graph goes forward; None where there is a cycle.
    fn order(&self, alloc: Global, events: u32) -> Result<Option<Vec<u32>>, NoMemory>
        requires ends { AreBelow self.now.nodes self.now.edges.items }
        ensures { IfOk result (λ found. MatchOption found (HasCycle self.now.edges.items) (λ order. IsEventsOf self.now.nodes self.now.edges.items events order.items)) }
    {
        if u32::try_from(self.edges.len()).is_err() {
            return Err(NoMemory);
        }
        match order_or_cycle(alloc, self.nodes, self.edges.as_slice())? {
            TopoAnswer::Order(order) => Ok(Some(events_of(alloc, order.as_slice(), events)?)),
            TopoAnswer::Cycle(_) => Ok(None),
        }
    }
}

/// The numbers of the list that are those of events, in its order.
fn events_of(alloc: Global, numbers: &[u32], events: u32) -> Result<Vec<u32>, NoMemory>
    ensures { IfOk result (λ kept. kept.items ≡ filter (λ v. nat_lt v events) numbers.now) }
{
    Ok(
        numbers
            .iter()
            .copied()
            .filter(|v| *v < events)
            .collect(alloc)?,
    )
}

impl Lanes {
    /// The events in an order in which every pair goes forward; None where the pairs have a cycle.
    pub fn order(self, alloc: Global, events: u32) -> Result<Option<Vec<u32>>, NoMemory>
        requires direct { AreBelow events self.direct.items }
        requires sources { AreOfEvents events self.sources.items }
        requires targets { AreOfEvents events self.targets.items }
        ensures { IfOk result (λ found. let pairs = Crosses self.direct.items self.sources.items self.targets.items in
            MatchOption found (HasRound pairs) (λ order. IsOrderOf events pairs order.items)) }
    {
        let graph = self.graph(events)?;
        let found = graph.order(alloc, events)?;
        Ok(found)
    }
}
