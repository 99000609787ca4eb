ghost use Rattle.std.specs.Prelude.{◌≤◌, ◌<◌, ◌+◌, ◌^◌, All, IfOk, OnOk, length};

use ev_graph::NoMemory;
use std::alloc::Global;
use topo::Edge;

/// Puts edges from a number to the eight after it, as far as they are below n, behind the others.
fn push_rungs(edges: &mut Vec<Edge>, n: u32, from: u32) -> Result<(), NoMemory>
    requires from { from < n }
    requires ends { All (λ e. (e.from < n) × (e.to < n)) edges.old.items }
    ensures ends { OnOk result (All (λ e. (e.from < n) × (e.to < n)) edges.new.items) }
    ensures few { OnOk result (length edges.new.items ≤ length edges.old.items + 8) }
{
    for to in from + 1..n.min(from.saturating_add(9)) {
        edges.push(Edge { from, to })?;
    }
    Ok(())
}

/// Edges from each number below n to the eight after it, as far as they are below n, and where `closed` from the last back to 0.
pub fn ladder(alloc: Global, n: u32, closed: bool) -> Result<Vec<Edge>, NoMemory>
    requires some { 0 < n }
    requires few { n < 2 ^ 24 }
    ensures ends { IfOk result (λ edges. All (λ e. (e.from < n) × (e.to < n)) edges.items) }
    ensures few { IfOk result (λ edges. length edges.items < 2 ^ 32) }
{
    let mut edges = Vec::new(alloc);
    for from in 0..n {
        push_rungs(&mut edges, n, from)?;
    }
    if closed {
        edges.push(Edge { from: n - 1, to: 0 })?;
    }
    Ok(edges)
}
