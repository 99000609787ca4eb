ghost use Rattle.std.specs.Prelude.{◌≡◌, ◌<◌, ℕ, zero, List as Sequence, [], Some, IfOk, IfSome, IfNone, OnOk, MatchOption, length, slice_get};
ghost use Rattle.ev_graph.specs.Places.{StandsIn};
ghost use Rattle.topo.specs.declared.edge.Edge.{Edge as AnyEdge};
ghost use Rattle.topo.specs.declared.walk.Mark.TheVariants as mark;
ghost use Rattle.topo.specs.Walk.{AreWalkable, Holds, LeadsToTop, IsTop, IsPast, GoesOn, Closes, HasVisited, IsPartFrom, IsFresh};

use crate::Edge;
use crate::lookup::at;
use ev_graph::NoMemory;
use std::alloc::Global;

/// How far the walk has come with a number.
#[derive(Clone, Copy, PartialEq, Eq)]
pub enum Mark {
    /// The walk has not come to it.
    New,
    /// It stands on the stack.
    Open,
    /// It is done, and so is each number from which an edge leads to it.
    Done,
}

/// A walk in depth, against the edges: a number is done once all numbers are from which edges lead to it.
#[derive(Drop)]
pub struct Walk {
    /// For each number, the link to the last edge to it that has not been passed.
    pub cursors: Vec<u32>,
    /// For each number, how far the walk has come with it.
    pub marks: Vec<Mark>,
    /// The open numbers; from each an edge leads to the one below it.
    pub stack: Vec<u32>,
    /// The numbers that are done, in the order in which they were.
    pub done: Vec<u32>,
}

impl Walk {
    /// A walk that has come to no number.
    pub fn new(alloc: Global, n: u32, last: Vec<u32>) -> Result<Walk, NoMemory>
        ensures { IfOk result (λ walk. IsFresh n last.items walk) }
    {
        Ok(Walk {
            cursors: last,
            marks: vec![in alloc; Mark::New; n as usize]?,
            stack: Vec::new(alloc),
            done: Vec::with_capacity(alloc, n as usize)?,
        })
    }

    /// Comes to a new number.
    fn open(&mut self, v: u32) -> Result<(), NoMemory>
        requires { slice_get self.old.marks.items v ≡ Some mark.New }
        ensures marked { OnOk result (slice_get self.new.marks.items v ≡ Some mark.Open) }
        ensures goes { OnOk result ((n : ℕ) (edges : Sequence AnyEdge) → Holds n edges self.old
            → LeadsToTop edges v self.old.stack.items → GoesOn n edges self.old self.new) }
    {
        self.stack.push(v)?;
        self.marks[v as usize] = Mark::Open;
        Ok(())
    }

    /// Ends with the top of the stack, all edges to which have been passed.
    fn close(&mut self, top: u32) -> Result<(), NoMemory>
        requires top { IsTop self.old.stack.items top }
        requires here { slice_get self.old.marks.items top ≡ Some mark.Open }
        ensures { OnOk result ((n : ℕ) (edges : Sequence AnyEdge) → Holds n edges self.old
            → slice_get self.old.cursors.items top ≡ Some zero → GoesOn n edges self.old self.new) }
    {
        self.done.push(top)?;
        let _ = self.stack.pop();
        self.marks[top as usize] = Mark::Done;
        Ok(())
    }

    /// Passes the edge at the cursor of v, which comes from a number that is done.
    fn pass(&mut self, v: u32, next: u32)
        requires { v < length self.old.cursors.items }
        ensures { (n : ℕ) (edges : Sequence AnyEdge) (before : Sequence ℕ) → Holds n edges self.old
            → AreWalkable n edges before → IsPast edges before self.old v next → GoesOn n edges self.old self.new }
    {
        self.cursors[v as usize] = next;
    }

    /// The top of the stack, where something is open.
    fn top(&self) -> Option<u32>
        ensures some { IfSome result (IsTop self.now.stack.items) }
        ensures none { IfNone result (self.now.stack.items ≡ []) }
    {
        self.stack.last().copied()
    }

    /// One step at the top of the stack; Some is an open number from which an edge leads there.
    fn step(&mut self, edges: &[Edge], before: &[u32], top: u32) -> Result<Option<u32>, NoMemory>
        requires walkable { AreWalkable (length self.old.marks.items) edges.now before.now }
        requires holds { Holds (length self.old.marks.items) edges.now self.old }
        requires top { IsTop self.old.stack.items top }
        ensures { let n = length self.old.marks.items in
            IfOk result (λ found. MatchOption found (GoesOn n edges.now self.old self.new) (Closes n edges.now self.new)) }
    {
        let cursor = at(self.cursors.as_slice(), top as usize) as usize;
        if cursor == 0 {
            self.close(top)?;
            return Ok(None);
        }
        let from = at(edges, cursor - 1).from;
        match at(self.marks.as_slice(), from as usize) {
            Mark::New => self.open(from)?,
            Mark::Open => return Ok(Some(from)),
            Mark::Done => self.pass(top, at(before, cursor - 1)),
        }
        Ok(None)
    }

    /// Walks back from v until nothing is open; Some is an open number from which an edge leads to the top of the stack.
    pub fn visit(&mut self, edges: &[Edge], before: &[u32], v: u32) -> Result<Option<u32>, NoMemory>
        requires walkable { AreWalkable (length self.old.marks.items) edges.now before.now }
        requires holds { Holds (length self.old.marks.items) edges.now self.old }
        requires idle { self.old.stack.items ≡ [] }
        requires here { v < length self.old.marks.items }
        ensures { let n = length self.old.marks.items in
            IfOk result (λ found. MatchOption found (HasVisited n edges.now v self.old self.new) (Closes n edges.now self.new)) }
    {
        if at(self.marks.as_slice(), v as usize) != Mark::New {
            return Ok(None);
        }
        self.open(v)?;
        while let Some(top) = self.top() {
            if let Some(from) = self.step(edges, before, top)? {
                return Ok(Some(from));
            }
        }
        Ok(None)
    }

    /// The numbers of the stack from the top down to this one.
    pub fn part_from(&self, alloc: Global, from: u32) -> Result<Vec<u32>, NoMemory>
        requires { StandsIn self.now.stack.items from }
        ensures { IfOk result (λ part. IsPartFrom self.now.stack.items from part.items) }
    {
        let place = self.stack.iter().position(|v| *v == from).unwrap();
        Ok(self.stack[place..].iter().rev().copied().collect(alloc)?)
    }

    /// The numbers that are done, in order.
    pub fn into_done(self) -> Vec<u32>
        ensures { result.items ≡ self.done.items }
    {
        let Walk { done, .. } = self;
        done
    }
}
