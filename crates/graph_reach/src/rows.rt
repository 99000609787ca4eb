ghost use Rattle.std.specs.Prelude.{◌≡◌, ◌++◌, [], ◌∷◌, OnOk, OnErr, length};
ghost use Rattle.graph_reach.specs.Rows.{row_of};

use crate::Graph;
use ev_graph::NoMemory;
use std::alloc::Global;
use std::marker::Model;

/// The part of the targets from one place up to another.
#[derive(Clone, Copy)]
pub(crate) struct Span {
    pub start: usize,
    pub end: usize,
}

/// A graph by compact rows: the successors of node n are those of row n, and each node weighs 1.
///
/// Contracts see the list of the rows.
#[derive(Drop)]
pub struct Rows {
    targets: Vec<u64>,
    spans: Vec<Span>,
}

impl Model for Rows {
    ghost use Rattle.std.specs.Prelude.{ℕ, List as Sequence};
    ghost use Rattle.graph_reach.specs.Spans.{rows_in, AreSpans};

    ghost Value = { Sequence (Sequence ℕ) };

    ghost view = { λ rows. rows_in rows.targets.items rows.spans.items };

    ghost invariant = { λ rows. AreSpans rows.targets.items rows.spans.items };
}

impl Rows {
    /// No rows.
    pub fn new(alloc: Global) -> Rows
        ensures { result ≡ [] }
    {
        Rows {
            targets: Vec::new(alloc),
            spans: Vec::new(alloc),
        }
    }

    /// Puts a row behind the others.
    pub fn push(&mut self, row: &[u64]) -> Result<(), NoMemory>
        ensures ok { OnOk result (self.new ≡ self.old ++ row.now ∷ []) }
        ensures err { OnErr result (self.new ≡ self.old) }
    {
        let start = self.targets.len();
        self.targets.extend_from_slice(row)?;
        let end = self.targets.len();
        self.spans.push(Span { start, end })?;
        Ok(())
    }

    /// How many rows there are.
    pub fn len(&self) -> usize
        ensures { result ≡ length self.now }
    {
        self.spans.len()
    }

    /// Row n, which is empty where there are not so many.
    pub fn row(&self, node: u64) -> &[u64]
        ensures { result.now ≡ row_of self.now node }
    {
        match self.spans.get(node as usize) {
            Some(span) => &self.targets[span.start..span.end],
            None => &[],
        }
    }
}

impl Graph for Rows {
    ghost use Rattle.graph_reach.specs.Rows.{row_of, one};

    ghost weight_of = { one };

    ghost successors_of = { row_of };

    fn weight(&self, _node: u64) -> u64 {
        1
    }

    fn successors(&self, node: u64, into: &mut Vec<u64>) -> Result<(), NoMemory> {
        into.extend_from_slice(self.row(node))?;
        Ok(())
    }
}
