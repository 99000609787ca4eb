use ev_graph::List;

/// An edge between two numbers.
#[derive(Clone, Copy, PartialEq, Eq)]
pub struct Edge {
    pub from: u32,
    pub to: u32,
}

/// What can be said of numbers and the edges between them.
#[derive(Drop)]
pub enum TopoAnswer {
    /// Each number once, so that every edge goes forward.
    Order(List<u32>),
    /// Distinct numbers: an edge leads from each to the next, and from the last to the first.
    Cycle(List<u32>),
}
