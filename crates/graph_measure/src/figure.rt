ghost use Rattle.std.specs.Prelude.{◌<◌};

use ev_graph::NoMemory;
use graph_reach::Rows;
use std::alloc::Global;
use std::ops::Range;

/// The shapes of the graphs that are searched.
#[derive(Clone, Copy)]
pub enum Shape {
    /// Each node leads to the next.
    Chain,
    /// The first node leads to all others.
    Star,
    /// Each node leads to each.
    Complete,
    /// Each node leads to the next and to the last.
    ChainToLast,
}

impl Shape {
    /// The shape's name in what is printed.
    pub fn name(self) -> &'static str {
        match self {
            Shape::Chain => "chain",
            Shape::Star => "star",
            Shape::Complete => "complete",
            Shape::ChainToLast => "chain to last",
        }
    }

    /// The nodes that a node leads to by the shape's regular edges.
    fn others(self, node: u64, nodes: u64) -> Range<u64> {
        match self {
            Shape::Chain | Shape::ChainToLast => {
                nodes.min(node.saturating_add(1))..nodes.min(node.saturating_add(2))
            }
            Shape::Star if node == 0 => nodes.min(1)..nodes,
            Shape::Star => 0..0,
            Shape::Complete => 0..nodes,
        }
    }

    /// Puts the nodes that a node leads to behind what the row has.
    fn put_row(self, node: u64, nodes: u64, row: &mut Vec<u64>) -> Result<(), NoMemory>
        requires { 0 < nodes }
    {
        for other in self.others(node, nodes) {
            row.push(other)?;
        }
        if let Shape::ChainToLast = self {
            row.push(nodes - 1)?;
        }
        Ok(())
    }

    /// The graph of this shape.
    pub fn rows(self, alloc: Global, nodes: u64) -> Result<Rows, NoMemory>
        requires { 0 < nodes }
    {
        let mut rows = Rows::new(alloc);
        let mut row = Vec::new(alloc);
        for node in 0..nodes {
            row.clear();
            self.put_row(node, nodes, &mut row)?;
            rows.push(row.as_slice())?;
        }
        Ok(rows)
    }
}
