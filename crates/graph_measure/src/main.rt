//! Searches in graphs of known shapes, and orders of known edges, to measure the time that they take.
//! Nothing rests on it; it calls `reach` and `first_sources` of `graph_reach`, and `order_or_cycle` of `topo`.
//! Source: the shapes on which a search that is not linear shows it: chain, star and complete graph.
#![tactic(auto)]

ghost use Rattle.std.specs.Prelude.{◌<◌, ◌^◌};

mod figure;
mod ladder;

use figure::Shape;
use graph_reach::{first_sources, reach};
use ladder::ladder;
use std::env;
use topo::{TopoAnswer, order_or_cycle};

/// How many numbers are ordered, each with eight edges.
const NUMBERS: u32 = 131_072;

/// Searches in a graph of this shape, and prints what was found.
fn search<R: Print + AllocGlobal>(rt: &R, shape: Shape, nodes: u64) -> anyhow::Result<()>
    requires { 0 < nodes }
{
    let rows = shape.rows(rt.alloc(), nodes)?;
    let reached = reach(rt.alloc(), &rows, &[0], nodes)?.map_or(0, |found| found.len());
    let sources = first_sources(rt.alloc(), &rows, &[nodes - 1, 0])?;
    let (of_first, of_last) = (sources.of(0), sources.of(nodes - 1));
    println!(rt;
        "{} of {nodes}: {reached} reached, 0 from {of_first:?}, the last from {of_last:?}",
        shape.name()
    )?;
    Ok(())
}

/// Orders numbers along edges, or finds a cycle of them, and prints how many the answer has.
fn order<R: Print + AllocGlobal>(rt: &R, closed: bool) -> anyhow::Result<()> {
    let edges = ladder(rt.alloc(), NUMBERS, closed)?;
    match order_or_cycle(rt.alloc(), NUMBERS, edges.as_slice())? {
        TopoAnswer::Order(order) => println!(rt; "an order of {}", order.as_slice().len())?,
        TopoAnswer::Cycle(_) => println!(rt; "a cycle")?,
    }
    Ok(())
}

/// Measures one part by its name, or all parts where there is none.
fn main(rt: HostRuntime) -> anyhow::Result<()> {
    let name = env::args(&rt)?.nth(1);
    let wanted = |part: &str| name.as_ref().is_none_or(|name| name.as_str() == part);
    if wanted("chain") {
        search(&rt, Shape::Chain, 65_536)?;
    }
    if wanted("star") {
        search(&rt, Shape::Star, 65_536)?;
    }
    if wanted("complete") {
        search(&rt, Shape::Complete, 2_000)?;
    }
    if wanted("last") {
        search(&rt, Shape::ChainToLast, 65_536)?;
    }
    if wanted("order") {
        order(&rt, false)?;
    }
    if wanted("cycle") {
        order(&rt, true)?;
    }
    Ok(())
}
