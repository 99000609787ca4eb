ghost use Rattle.std.specs.Prelude.{◌≡◌, ◌<◌, ◌^◌, ◌↔◌, All, IfOk, length};
ghost use Rattle.topo.specs.Order.{IsOrder, IsCycle, IsAcyclic, HasCycle, OnOrder, OnCycle, IsAnOrder, IsACycle};

use crate::links::{Links, link_edges};
use crate::walk::Walk;
use crate::{Edge, TopoAnswer};
use ev_graph::{List, NoMemory};
use std::alloc::Global;

/// An order of the numbers below n in which every edge goes forward, or a cycle of the edges where there is one.
///
/// Takes time and memory linear in n and the edges.
pub fn order_or_cycle(alloc: Global, n: u32, edges: &[Edge]) -> Result<TopoAnswer, NoMemory>
    requires ends { All (λ e. (e.from < n) × (e.to < n)) edges.now }
    requires few { length edges.now < 2 ^ 32 }

    ensures order { IfOk result (λ answer. OnOrder answer (IsOrder n edges.now)) }
    ensures cycle { IfOk result (λ answer. OnCycle answer (IsCycle edges.now)) }

    // Which of the two it is depends on the edges alone.
    ensures acyclic { IfOk result (λ answer. IsAnOrder answer ↔ IsAcyclic edges.now) }
    ensures cyclic { IfOk result (λ answer. IsACycle answer ↔ HasCycle edges.now) }
{
    let Links { last, before } = link_edges(alloc, n, edges)?;
    let mut walk = Walk::new(alloc, n, last)?;
    for v in 0..n {
        if let Some(from) = walk.visit(edges, before.as_slice(), v)? {
            let cycle = walk.part_from(alloc, from)?;
            return Ok(TopoAnswer::Cycle(List::of(cycle)));
        }
    }
    Ok(TopoAnswer::Order(List::of(walk.into_done())))
}
