ghost use Rattle.std.specs.Prelude.{◌≡◌, IfOk};
ghost use Rattle.std.specs.List.{filter};
ghost use Rattle.graph_reach.specs.Backwards.{row_beside};
ghost use Rattle.frame_marks.specs.Lists.{AreFrames, AreOrdered, is_exposed, is_pointerless, pointer_of};

use crate::prologue::{Prologue, prologue_of};
use crate::witnesses::{Both, Sign, witnesses};
use ev_graph::NoMemory;
use graph_reach::{Backwards, Sources, first_sources};
use std::alloc::Global;
use x64_syntax::Placed;

/// What was found against the edges of bodies: for each function the first and the last
/// instruction of its body that changes rbp, the first and the last that would expose its frame
/// if it has a frame pointer, and the first that would if it has none.
#[derive(Drop)]
pub(crate) struct Frames {
    pub changes: Both,
    pub framed: Both,
    pub plain: Sources,
}

impl Frames {
    /// Looks for the instructions by which frames are spoilt.
    pub fn of(alloc: Global, placed: &[Placed], back: &Backwards) -> Result<Frames, NoMemory>
        ensures { IfOk result (AreFrames (row_beside back.now) placed.now) }
    {
        let changes = Both::of(alloc, back, witnesses(alloc, placed, Sign::ChangesPointer)?)?;
        let framed = Both::of(alloc, back, witnesses(alloc, placed, Sign::ExposesFramed)?)?;
        let plain = first_sources(alloc, back, &witnesses(alloc, placed, Sign::Exposes)?)?;
        Ok(Frames {
            changes,
            framed,
            plain,
        })
    }

    /// Where a function sets its frame pointer up, if it has one.
    fn pointer_of(&self, placed: &[Placed], function: u64) -> Option<Prologue>
        requires { AreOrdered placed.now }
        ensures { result ≡ pointer_of self.now placed.now function }
    {
        let own = prologue_of(placed, function)?;
        if self.changes.is_only(function, own.set) {
            Some(own)
        } else {
            None
        }
    }

    /// Whether a function exposes its frame.
    fn is_exposed(&self, placed: &[Placed], function: u64) -> bool
        requires { AreOrdered placed.now }
        ensures { result ≡ is_exposed self.now placed.now function }
    {
        match self.pointer_of(placed, function) {
            Some(own) => !self.framed.is_only(function, own.push),
            None => self.plain.of(function).is_some(),
        }
    }

    /// Whether a function has no frame pointer.
    fn is_pointerless(&self, placed: &[Placed], function: u64) -> bool
        requires { AreOrdered placed.now }
        ensures { result ≡ is_pointerless self.now placed.now function }
    {
        self.pointer_of(placed, function).is_none()
    }

    /// Those of the functions that expose their frames.
    pub fn exposed(
        &self,
        alloc: Global,
        placed: &[Placed],
        functions: &[u64],
    ) -> Result<Vec<u64>, NoMemory>
        requires { AreOrdered placed.now }
        ensures { IfOk result (λ v. v.items ≡ filter (is_exposed self.now placed.now) functions.now) }
    {
        let mut some = Vec::new(alloc);
        for function in functions {
            if self.is_exposed(placed, *function) {
                some.push(*function)?;
            }
        }
        Ok(some)
    }

    /// Those of the functions that have no frame pointer.
    pub fn pointerless(
        &self,
        alloc: Global,
        placed: &[Placed],
        functions: &[u64],
    ) -> Result<Vec<u64>, NoMemory>
        requires { AreOrdered placed.now }
        ensures { IfOk result (λ v. v.items ≡ filter (is_pointerless self.now placed.now) functions.now) }
    {
        let mut some = Vec::new(alloc);
        for function in functions {
            if self.is_pointerless(placed, *function) {
                some.push(*function)?;
            }
        }
        Ok(some)
    }
}
