ghost use Rattle.std.specs.Prelude.{◌≡◌, ◌≢◌, ◌⊎◌, ◌+◌, ◌<◌, ◌≤◌, ◌^◌, ◌↔◌, IsTrue, IfSome, IfNone, MatchOption, slice_get};
ghost use Rattle.arm_replay.specs.Walking.{count_in, one, told_at, read_value, input_value, LineHasSources, ReadFits, IsMisread, IsMisfit, IsFitting};

use crate::fault::ReplayKind;
use a64_table::RowItems;
use exec_text::{Given, GivenThread};

/// The value of the next line, where it is a read's.
pub(crate) fn given_read(given: &GivenThread, taken: usize) -> Option<u64>
    ensures { result ≡ read_value (slice_get given.now.values taken) }
{
    match given.values.as_slice().get(taken) {
        Some(Given::Read(value, _)) => Some(*value),
        _ => None,
    }
}

/// The value of the next line, where it is an input's.
pub(crate) fn given_input(given: &GivenThread, taken: usize) -> Option<u64>
    ensures value { result ≡ input_value (slice_get given.now.values taken) }
    ensures fits { IfSome result (λ value. value < 2 ^ 64) }
{
    match given.values.as_slice().get(taken) {
        Some(Given::Input(value)) => Some(*value),
        _ => None,
    }
}

/// Whether the next line is a read's that has one source, or one for each of so many bytes.
fn has_sources(given: &GivenThread, taken: usize, size: u8) -> bool
    ensures { IsTrue result ↔ LineHasSources size (slice_get given.now.values taken) }
{
    match given.values.as_slice().get(taken) {
        Some(Given::Read(_, sources)) => {
            let count = sources.as_slice().len();
            count == 1 || count == usize::from(size)
        }
        _ => false,
    }
}

/// Whether a value fits so many bytes.
fn fits(value: u64, size: u8) -> bool
    ensures { IsTrue result ↔ (value < 256 ^ size) }
{
    match size {
        0 => value == 0,
        1 => value < 0x100,
        2 => value < 0x1_0000,
        3 => value < 0x100_0000,
        4 => value < 0x1_0000_0000,
        5 => value < 0x100_0000_0000,
        6 => value < 0x1_0000_0000_0000,
        7 => value < 0x100_0000_0000_0000,
        _ => true,
    }
}

/// How many accesses, inputs and outputs a row has made.
fn count_in(made: &RowItems) -> u32
    ensures { result ≡ count_in made.now }
{
    u32::from(made.input.is_some())
        + u32::from(made.output.is_some())
        + u32::from(made.read.is_some())
        + u32::from(made.write.is_some())
}

/// What is wrong with the read that a row has made on the next line, if it has made one.
fn misread(given: &GivenThread, taken: usize, made: &RowItems) -> Option<ReplayKind>
    ensures { MatchOption result (ReadFits (slice_get given.now.values taken) made.now)
        (IsMisread (slice_get given.now.values taken) made.now) }
{
    let read = made.read?;
    if !has_sources(given, taken, read.size) {
        return Some(ReplayKind::Sources);
    }
    if !fits(read.value, read.size) {
        return Some(ReplayKind::Wide);
    }
    None
}

/// What is wrong with what a row has made, of a thread that has made `have` before.
pub(crate) fn misfit(
    given: &GivenThread,
    taken: usize,
    have: u32,
    made: &RowItems,
) -> Option<ReplayKind>
    requires { have ≤ given.now.count }
    ensures fits { MatchOption result (IsFitting have given.now.count (slice_get given.now.values taken) made.now)
        (IsMisfit have given.now.count (slice_get given.now.values taken) made.now) }
    ensures room { IfNone result (have + count_in made.now < 2 ^ 32) }
{
    let count = count_in(made);
    if count == 0 {
        return None;
    }
    if have == given.count {
        return Some(ReplayKind::More);
    }
    if let Some(kind) = misread(given, taken, made) {
        return Some(kind);
    }
    if count > given.count - have {
        return Some(ReplayKind::Split);
    }
    None
}

/// How a value that is missing is told, of a thread that has made `have` of `count`.
pub(crate) fn missing_kind(have: u32, count: u32) -> ReplayKind
    ensures { ((have ≡ count) × (result ≡ ReplayKind.More)) ⊎ ((have ≢ count) × (result ≡ ReplayKind.Values)) }
{
    if have == count {
        ReplayKind::More
    } else {
        ReplayKind::Values
    }
}

/// The item at which a fault of this kind is told.
pub(crate) fn told_at(have: u32, count: u32, kind: ReplayKind) -> u32
    ensures { result ≡ told_at have count kind }
{
    match kind {
        ReplayKind::Split => count,
        ReplayKind::Values
        | ReplayKind::Sources
        | ReplayKind::Wide
        | ReplayKind::Early
        | ReplayKind::Left
        | ReplayKind::More
        | ReplayKind::End
        | ReplayKind::Steps => have,
    }
}

/// How many values a row has taken.
pub(crate) fn takes(made: &RowItems) -> usize
    ensures { result ≡ one made.now.read + one made.now.input }
{
    usize::from(made.read.is_some()) + usize::from(made.input.is_some())
}
