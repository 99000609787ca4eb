ghost use Rattle.std.specs.Prelude.{◌≡◌, ◌<◌, ◌^◌, All, IfOk, length};
ghost use Rattle.topo.specs.Links.{AreLinks};

use crate::Edge;
use crate::lookup::at;
use ev_graph::NoMemory;
use std::alloc::Global;

/// The edges to each number, from the last to the first.
///
/// A link is one more than the place of an edge, or 0 where there is no further one.
#[derive(Drop)]
pub struct Links {
    /// For each number, the link to the last edge that leads to it.
    pub last: Vec<u32>,
    /// For each edge, the link to the edge before it that leads to the same number.
    pub before: Vec<u32>,
}

/// Links the edges between numbers below n, in time and memory linear in both.
pub fn link_edges(alloc: Global, n: u32, edges: &[Edge]) -> Result<Links, NoMemory>
    requires ends { All (λ e. (e.from < n) × (e.to < n)) edges.now }
    requires few { length edges.now < 2 ^ 32 }
    ensures { let k = length edges.now in
        IfOk result (λ links. AreLinks n edges.now k links.last.items links.before.items) }
{
    let mut last = vec![in alloc; 0; n as usize]?;
    let mut before = Vec::with_capacity(alloc, edges.len())?;
    for (place, edge) in edges.iter().enumerate() {
        let to = edge.to as usize;
        before.push(at(last.as_slice(), to))?;
        last[to] = place as u32 + 1;
    }
    Ok(Links { last, before })
}
