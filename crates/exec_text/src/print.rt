ghost use Rattle.std.specs.Prelude.{◌≡◌, ◌+◌, [], ◌∷◌, ◌++◌, length, IfOk, OnOk, MatchOption, string_bytes};
ghost use Rattle.std.specs.List.{flat_map, list_all};
ghost use Rattle.ev_graph.specs.Places.{IsDistinct};
ghost use Rattle.ev_graph.specs.WellFormed.{IsIndexed, read_ids};
ghost use Rattle.exec_text.specs.Entries.{StandFrom, entry_ids, item_read, read_in, reads_in};
ghost use Rattle.exec_text.specs.Lines.{end_word};
ghost use Rattle.exec_text.specs.Explained.{access_text, event_text, explained, item_line, letters, listed, merged, order_line, origin_text, place_text, same_source, source_text, stack_line, stack_lines, thread_line, thread_lines};

use ev_graph::{
    Access, AccessKind, End, EventId, Execution, Item, NoMemory, ReadFrom, Source, Stack,
    ThreadRun, TrapKind,
};
use std::alloc::{AllocError, Global};
use std::fmt::Write;

/// The word of a thread's end.
fn word_of_end(end: End) -> &'static str
    ensures { result.now ≡ end_word end }
{
    match end {
        End::Running => "running",
        End::Halted => "halted",
        End::Trap(TrapKind::BadAccess) => "badaccess",
        End::Trap(TrapKind::Divide) => "divide",
        End::Trap(TrapKind::Invalid) => "invalid",
        End::Trap(TrapKind::BadReturn) => "badreturn",
        End::Trap(TrapKind::BadJump) => "",
    }
}

/// The letters of an access.
fn letters_of(access: &Access) -> &'static str
    ensures { result.now ≡ letters access.now.locked access.now.kind }
{
    match (access.locked, access.kind) {
        (false, AccessKind::Read) => "R",
        (false, AccessKind::Write) => "W",
        (true, AccessKind::Read) => "LR",
        (true, AccessKind::Write) => "LW",
    }
}

fn push_event(out: &mut String, id: EventId) -> Result<(), AllocError>
    ensures { OnOk result (string_bytes out.new ≡ string_bytes out.old ++ event_text id) }
{
    write!(out, "{}.{}", id.thread, id.index)
}

fn push_source(out: &mut String, source: Source) -> Result<(), AllocError>
    ensures { OnOk result (string_bytes out.new ≡ string_bytes out.old ++ source_text source) }
{
    match source {
        Source::Start => out.push_str("init"),
        Source::From(id) => push_event(out, id),
    }
}

/// Whether the two are one source.
fn is_same(a: Source, b: Source) -> bool
    ensures { result ≡ same_source a b }
{
    a == b
}

/// Whether all of these are this one.
fn are_all(sources: &[Source], one: Source) -> bool
    ensures { result ≡ list_all (λ t. same_source t one) sources.now }
{
    sources.iter().all(|source| is_same(*source, one))
}

/// The source that all of these are; None where there is none, or more than one.
fn one_source(sources: &[Source]) -> Option<Source>
    ensures { MatchOption result (merged sources.now ≡ sources.now) (λ s. merged sources.now ≡ s ∷ []) }
{
    let (first, others) = sources.split_first()?;
    if are_all(others, *first) {
        Some(*first)
    } else {
        None
    }
}

fn push_listed(out: &mut String, sources: &[Source]) -> Result<(), AllocError>
    ensures { OnOk result (string_bytes out.new ≡ string_bytes out.old ++ listed sources.now) }
{
    let Some((first, others)) = sources.split_first() else {
        return Ok(());
    };
    push_source(out, *first)?;
    for source in others {
        out.push(',')?;
        push_source(out, *source)?;
    }
    Ok(())
}

fn push_sources(out: &mut String, sources: &[Source]) -> Result<(), AllocError>
    ensures { OnOk result (string_bytes out.new ≡ string_bytes out.old ++ listed (merged sources.now)) }
{
    match one_source(sources) {
        Some(source) => push_source(out, source),
        None => push_listed(out, sources),
    }
}

fn push_place(out: &mut String, place: u64) -> Result<(), AllocError>
    ensures { OnOk result (string_bytes out.new ≡ string_bytes out.old ++ place_text place) }
{
    writeln!(out, " @{place:x}")
}

fn push_access(out: &mut String, access: &Access) -> Result<(), AllocError>
    ensures { OnOk result (string_bytes out.new ≡ string_bytes out.old ++ access_text access.now) }
{
    let Access {
        address,
        size,
        value,
        ..
    } = *access;
    push_event(out, access.id)?;
    let letters = letters_of(access);
    write!(out, " {letters} {address:x} {size} {value:x}")
}

fn push_stack(out: &mut String, number: usize, stack: &Stack) -> Result<(), AllocError>
    ensures { OnOk result (string_bytes out.new ≡ string_bytes out.old ++ stack_line number stack.now) }
{
    let Stack { lo, hi } = *stack;
    writeln!(out, "stack {number} {lo:x} {hi:x}")
}

fn push_stacks(out: &mut String, stacks: &[Stack]) -> Result<(), AllocError>
    ensures { OnOk result (string_bytes out.new ≡ string_bytes out.old ++ stack_lines 0 stacks.now) }
{
    for (number, stack) in stacks.iter().enumerate() {
        push_stack(out, number, stack)?;
    }
    Ok(())
}

fn push_order(out: &mut String, co: &[EventId]) -> Result<(), AllocError>
    ensures { OnOk result (string_bytes out.new ≡ string_bytes out.old ++ order_line co.now) }
{
    out.push_str("co")?;
    for id in co {
        out.push(' ')?;
        push_event(out, *id)?;
    }
    out.push_str("\n")
}

/// The sources of a read, which has the entry at this place; the place of the next entry.
fn push_origin(
    out: &mut String,
    access: &Access,
    rf: &[ReadFrom],
    next: usize,
) -> Result<usize, AllocError>
    requires distinct { IsDistinct (entry_ids rf.now) }
    requires entry { StandFrom (entry_ids rf.now) next (read_in access.now.kind access.now.id) }
    ensures text { OnOk result (string_bytes out.new ≡ string_bytes out.old ++ origin_text rf.now access.now.kind access.now.id) }
    ensures next { IfOk result (λ after. after ≡ next + length (read_in access.now.kind access.now.id)) }
{
    match access.kind {
        AccessKind::Read => {
            out.push_str(" from ")?;
            push_sources(out, rf[next].bytes.as_slice())?;
            Ok(next + 1)
        }
        AccessKind::Write => Ok(next),
    }
}

/// An item's line; the place of the next entry.
fn push_item(
    out: &mut String,
    item: &Item,
    rf: &[ReadFrom],
    next: usize,
) -> Result<usize, AllocError>
    requires distinct { IsDistinct (entry_ids rf.now) }
    requires entry { StandFrom (entry_ids rf.now) next (item_read item.now) }
    ensures text { OnOk result (string_bytes out.new ≡ string_bytes out.old ++ item_line rf.now item.now) }
    ensures next { IfOk result (λ after. after ≡ next + length (item_read item.now)) }
{
    match item {
        Item::Access(access) => {
            push_access(out, access)?;
            let after = push_origin(out, access, rf, next)?;
            push_place(out, access.place)?;
            Ok(after)
        }
        Item::Fence(fence) => {
            out.push_str("fence")?;
            push_place(out, fence.place)?;
            Ok(next)
        }
        Item::Input(given) => {
            let value = given.value;
            write!(out, "in {value:x}")?;
            push_place(out, given.place)?;
            Ok(next)
        }
        Item::Output(given) => {
            let value = given.value;
            write!(out, "out {value:x}")?;
            push_place(out, given.place)?;
            Ok(next)
        }
    }
}

/// The lines of items, whose reads have the entries from this place on; the place of the next entry.
fn push_items(
    out: &mut String,
    items: &[Item],
    rf: &[ReadFrom],
    first: usize,
) -> Result<usize, AllocError>
    requires distinct { IsDistinct (entry_ids rf.now) }
    requires entries { StandFrom (entry_ids rf.now) first (reads_in items.now) }
    ensures text { OnOk result (string_bytes out.new ≡ string_bytes out.old ++ flat_map (item_line rf.now) items.now) }
    ensures next { IfOk result (λ after. after ≡ first + length (reads_in items.now)) }
{
    let mut next = first;
    for item in items {
        next = push_item(out, item, rf, next)?;
    }
    Ok(next)
}

/// A thread's line and those of its items, whose reads have the entries from this place on; the place of
/// the next entry.
fn push_thread(
    out: &mut String,
    number: usize,
    thread: &ThreadRun,
    rf: &[ReadFrom],
    first: usize,
) -> Result<usize, AllocError>
    requires distinct { IsDistinct (entry_ids rf.now) }
    requires entries { StandFrom (entry_ids rf.now) first (reads_in thread.now.items) }
    ensures text { OnOk result (string_bytes out.new
        ≡ string_bytes out.old ++ (thread_line number thread.now ++ flat_map (item_line rf.now) thread.now.items)) }
    ensures next { IfOk result (λ after. after ≡ first + length (reads_in thread.now.items)) }
{
    let end = word_of_end(thread.end);
    writeln!(out, "thread {number} {end}")?;
    push_items(out, thread.items.as_slice(), rf, first)
}

/// The lines of threads, whose reads have the entries of rf.
fn push_threads(out: &mut String, threads: &[ThreadRun], rf: &[ReadFrom]) -> Result<(), AllocError>
    requires distinct { IsDistinct (entry_ids rf.now) }
    requires entries { entry_ids rf.now ≡ read_ids threads.now }
    ensures { OnOk result (string_bytes out.new ≡ string_bytes out.old ++ thread_lines rf.now 0 threads.now) }
{
    let mut next = 0;
    for (number, thread) in threads.iter().enumerate() {
        next = push_thread(out, number, thread, rf, next)?;
    }
    Ok(())
}

/// The text that explains an execution: its stacks, its threads' items with the sources of their reads,
/// and its order of writes.
///
/// It takes as much memory as the text, and each entry of rf is looked at once.
pub fn print_exec(alloc: Global, x: &Execution) -> Result<Vec<u8>, NoMemory>
    // Ids are those of the accesses' threads and numbers, and rf has an entry for each read, in order.
    requires indexed { IsIndexed x.now.threads }
    requires entries { entry_ids x.now.rf ≡ read_ids x.now.threads }
    ensures { IfOk result (λ text. text.items ≡ explained x.now) }
{
    let mut out = String::new(alloc);
    out.push_str("explained\n")?;
    push_stacks(&mut out, x.stacks.as_slice())?;
    push_threads(&mut out, x.threads.as_slice(), x.rf.as_slice())?;
    push_order(&mut out, x.co.as_slice())?;
    out.push_str("end\n")?;
    Ok(out.into_bytes())
}
