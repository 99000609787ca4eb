ghost use Rattle.std.specs.Prelude.{◌≡◌, ◌+◌, ◌<◌, ◌++◌, ◌∷◌, [], IfOk, OnOk, IfNone, IfSome, drop, slice_get, Some};
ghost use Rattle.std.specs.Option.{option_to_list};
ghost use Rattle.exec_text.specs.declared.exec_file.Given.TheVariants as given;
ghost use Rattle.arm_replay.specs.Values.{by_byte, given_sources, is_pair, thread_entries, thread_pairs, item_reads, pair_after};
ghost use Rattle.arm_replay.specs.Replays.{all_entries, all_pairs};

use ev_graph::{Access, AccessKind, EventPair, Item, List, ReadFrom, Source, ThreadRun};
use exec_text::{Given, GivenThread};
use std::alloc::{AllocError, Global};

/// The sources of a read of so many bytes, byte by byte.
fn by_byte(alloc: Global, size: u8, sources: &[Source]) -> Result<Vec<Source>, AllocError>
    ensures { IfOk result (λ bytes. bytes.items ≡ by_byte size sources.now) }
{
    match sources {
        [source] => vec![in alloc; *source; usize::from(size)],
        _ => Vec::from_slice(alloc, sources),
    }
}

/// The access of an item, where it is a read.
fn item_read(item: &Item) -> Option<Access>
    ensures { option_to_list result ≡ item_reads item.now }
{
    match item {
        Item::Access(access) => match access.kind {
            AccessKind::Read => Some(*access),
            AccessKind::Write => None,
        },
        _ => None,
    }
}

/// The sources of the first read among values from a place on, and the place behind it.
fn next_read(values: &[Given], from: usize) -> Option<(&[Source], usize)>
    ensures none { IfNone result (given_sources (drop from values.now) ≡ []) }
    ensures some { IfSome result (λ found. given_sources (drop from values.now) ≡ found.0.now ∷ given_sources (drop found.1 values.now)) }
{
    for place in from..values.len() {
        if let Given::Read(_, sources) = &values[place] {
            return Some((sources.as_slice(), place + 1));
        }
    }
    None
}

/// Adds to rf what a thread's items do on the values that it is given.
fn push_entries(
    alloc: Global,
    rf: &mut Vec<ReadFrom>,
    items: &[Item],
    values: &[Given],
) -> Result<(), AllocError>
    ensures { OnOk result (rf.new.items ≡ rf.old.items ++ thread_entries items.now values.now) }
{
    let mut from = 0;
    for item in items {
        if let Some(read) = item_read(item) {
            let Some((sources, behind)) = next_read(values, from) else {
                return Ok(());
            };
            let bytes = by_byte(alloc, read.size, sources)?;
            rf.push(ReadFrom {
                read: read.id,
                bytes: List::of(bytes),
            })?;
            from = behind;
        }
    }
    Ok(())
}

/// The entries of rf for all threads.
pub(crate) fn all_entries(
    alloc: Global,
    threads: &[ThreadRun],
    given: &[GivenThread],
) -> Result<Vec<ReadFrom>, AllocError>
    ensures { IfOk result (λ rf. rf.items ≡ all_entries threads.now given.now) }
{
    let mut rf = Vec::new(alloc);
    for (k, thread) in threads.iter().enumerate() {
        let Some(given) = given.get(k) else {
            return Ok(rf);
        };
        push_entries(
            alloc,
            &mut rf,
            thread.items.as_slice(),
            given.values.as_slice(),
        )?;
    }
    Ok(rf)
}

/// Whether the first is a locked read and the second a locked write.
fn is_pair(a: &Access, b: &Access) -> bool
    ensures { result ≡ is_pair a.now b.now }
{
    a.kind == AccessKind::Read && a.locked && b.kind == AccessKind::Write && b.locked
}

/// The locked pair of the last access, if there was one, with this one.
fn pair_after(last: Option<Access>, access: &Access) -> Option<EventPair>
    ensures { option_to_list result ≡ pair_after last access.now }
{
    let last = last?;
    if !is_pair(&last, access) {
        return None;
    }
    Some(EventPair {
        first: last.id,
        second: access.id,
    })
}

/// Adds to rmw what a thread's items do.
fn push_pairs(rmw: &mut Vec<EventPair>, items: &[Item]) -> Result<(), AllocError>
    ensures { OnOk result (rmw.new.items ≡ rmw.old.items ++ thread_pairs items.now) }
{
    let mut last = None;
    for item in items {
        if let Item::Access(access) = item {
            if let Some(pair) = pair_after(last, access) {
                rmw.push(pair)?;
            }
            last = Some(*access);
        }
    }
    Ok(())
}

/// The locked pairs of all threads.
pub(crate) fn all_pairs(alloc: Global, threads: &[ThreadRun]) -> Result<Vec<EventPair>, AllocError>
    ensures { IfOk result (λ rmw. rmw.items ≡ all_pairs threads.now) }
{
    let mut rmw = Vec::new(alloc);
    for thread in threads {
        push_pairs(&mut rmw, thread.items.as_slice())?;
    }
    Ok(rmw)
}
