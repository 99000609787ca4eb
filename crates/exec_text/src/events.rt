ghost use Rattle.std.specs.Prelude.{◌≡◌, ℕ, ◌≤◌, ◌↔◌, IsTrue, MatchOption, codes, List as Sequence};
ghost use Rattle.std.specs.List.{AllZip};
ghost use Rattle.ev_graph.specs.declared.events.EventId.{EventId as AnyEvent};
ghost use Rattle.exec_text.specs.Parts.{parts_at};
ghost use Rattle.exec_text.specs.Reading.{Reads, Tells};
ghost use Rattle.exec_text.specs.Events.{IsEvent, IsSource, IsSources, IsSmallEvent, IsSmallSource, AreSmallSources, IsSmallOrder};

use crate::fault::{LineFault, TextKind};
use crate::numbers::decimal;
use crate::parts::Parts;
use ev_graph::{EventId, List, Source};
use std::alloc::Global;

/// The greatest thread of an event.
const MOST_THREAD: u64 = 15;
/// The greatest number of an event in its thread.
const MOST_INDEX: u64 = 4095;
/// How many events an order of writes may have.
const MOST_EVENTS: usize = 4096;
/// How many sources a read may have.
const MOST_SOURCES: usize = 8;

/// The two numbers of an event `T.K`.
fn event_numbers(text: &[u8]) -> Option<(u64, u64)>
    ensures { MatchOption result ((e : AnyEvent) → IsEvent text.now e → ⊥)
        (λ found. IsEvent text.now (record { thread = found.0; index = found.1 })) }
{
    let (thread, index) = Parts::of(text, b'.').two()?;
    let thread = decimal(thread)?;
    let index = decimal(index)?;
    Some((thread, index))
}

/// The event `T.K`.
fn event(text: &[u8]) -> Result<EventId, TextKind>
    ensures { Tells (IsEvent text.now) IsSmallEvent result }
{
    let Some((thread, index)) = event_numbers(text) else {
        return Err(TextKind::Shape);
    };
    if thread > MOST_THREAD || index > MOST_INDEX {
        return Err(TextKind::Number);
    }
    Ok(EventId {
        thread: thread as u32,
        index: index as u32,
    })
}

/// The source `init` or `T.K`.
fn source(text: &[u8]) -> Result<Source, TextKind>
    ensures { Tells (IsSource text.now) IsSmallSource result }
{
    if text == b"init".as_slice() {
        return Ok(Source::Start);
    }
    match event(text) {
        Ok(id) => Ok(Source::From(id)),
        Err(fault) => Err(fault),
    }
}

/// The sources of a read, 1 to 8, between commas.
pub fn sources(alloc: Global, text: &[u8]) -> Result<List<Source>, LineFault>
    ensures { Reads (IsSources text.now) AreSmallSources result }
{
    let mut found = Vec::new(alloc);
    let mut wide = false;
    let mut count = 0;
    for part in Parts::of(text, b',') {
        if count == MOST_SOURCES {
            return Err(LineFault::Kind(TextKind::Shape));
        }
        count += 1;
        match source(part) {
            Ok(one) => found.push(one)?,
            Err(TextKind::Number) => wide = true,
            Err(TextKind::Shape) => return Err(LineFault::Kind(TextKind::Shape)),
        }
    }
    if wide {
        return Err(LineFault::Kind(TextKind::Number));
    }
    Ok(List::of(found))
}

/// The events of an order of writes, one in each field.
pub fn events(alloc: Global, fields: Parts<'_>) -> Result<List<EventId>, LineFault>
    ensures { Reads (AllZip IsEvent fields.entry) IsSmallOrder result }
{
    let mut found = Vec::new(alloc);
    let mut wide = false;
    for part in fields {
        match event(part) {
            Ok(id) if found.len() < MOST_EVENTS => found.push(id)?,
            Ok(_) => wide = true,
            Err(TextKind::Number) => wide = true,
            Err(TextKind::Shape) => return Err(LineFault::Kind(TextKind::Shape)),
        }
    }
    if wide {
        return Err(LineFault::Kind(TextKind::Number));
    }
    Ok(List::of(found))
}
