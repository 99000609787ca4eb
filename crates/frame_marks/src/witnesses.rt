ghost use Rattle.std.specs.Prelude.{◌≡◌, ◌++◌, ℕ, IfOk, OnOk, reverse};
ghost use Rattle.std.specs.List.{flat_map};
ghost use Rattle.graph_reach.specs.Backwards.{row_beside};
ghost use Rattle.graph_reach.specs.Reach.{From, IsFirst};
ghost use Rattle.graph_reach.specs.Sources.{source_of};
ghost use Rattle.frame_marks.specs.Lists.{AreBoth, is_none_or, is_only, shown, shows, witnesses};

use crate::uses::{changes_pointer, exposes, exposes_framed};
use ev_graph::NoMemory;
use graph_reach::{Backwards, Sources, first_sources};
use std::alloc::Global;
use x64_syntax::Placed;

/// What an instruction shows of the functions that have it: that it changes rbp otherwise than by
/// LEAVE or POP RBP, that it exposes the frame of a function with a frame pointer, or of one
/// without.
#[derive(Clone, Copy)]
pub(crate) enum Sign {
    ChangesPointer,
    ExposesFramed,
    Exposes,
}

/// Whether an instruction shows a sign.
fn shows(sign: Sign, p: &Placed) -> bool
    ensures { result ≡ shows sign p.now }
{
    match sign {
        Sign::ChangesPointer => changes_pointer(&p.instr),
        Sign::ExposesFramed => exposes_framed(&p.instr, p.flow) && !changes_pointer(&p.instr),
        Sign::Exposes => exposes(&p.instr, p.flow),
    }
}

/// Puts the address of an instruction that shows a sign behind what the list has.
fn push_shown(into: &mut Vec<u64>, sign: Sign, p: &Placed) -> Result<(), NoMemory>
    ensures { OnOk result (into.new.items ≡ into.old.items ++ shown sign p.now) }
{
    if shows(sign, p) {
        Ok(into.push(p.address)?)
    } else {
        Ok(())
    }
}

/// The addresses of the instructions that show a sign, in order.
pub(crate) fn witnesses(alloc: Global, placed: &[Placed], sign: Sign) -> Result<Vec<u64>, NoMemory>
    ensures { IfOk result (λ v. v.items ≡ witnesses sign placed.now) }
{
    let mut addresses = Vec::new(alloc);
    for p in placed {
        push_shown(&mut addresses, sign, p)?;
    }
    Ok(addresses)
}

/// For each node the first of some witnesses that reaches it, and the last.
///
/// Each witness that reaches a node is one and the same just where both are, if there are any.
#[derive(Drop)]
pub(crate) struct Both {
    pub first: Sources,
    pub last: Sources,
}

impl Both {
    /// The first and the last of the witnesses, against the edges of a graph.
    pub fn of(alloc: Global, back: &Backwards, mut addresses: Vec<u64>) -> Result<Both, NoMemory>
        ensures { IfOk result (AreBoth (row_beside back.now) addresses.items) }
    {
        let first = first_sources(alloc, back, &addresses)?;
        addresses.reverse();
        let last = first_sources(alloc, back, &addresses)?;
        Ok(Both { first, last })
    }

    /// Whether the first and the last witness that reach a node are none, or this one.
    pub fn is_only(&self, node: u64, one: u64) -> bool
        ensures { result ≡ is_only self.now node one }
    {
        is_none_or(one, self.first.of(node)) && is_none_or(one, self.last.of(node))
    }
}

/// Whether a witness is none, or this one.
fn is_none_or(one: u64, found: Option<u64>) -> bool
    ensures { result ≡ is_none_or one found }
{
    match found {
        Some(found) => found == one,
        None => true,
    }
}
