ghost use Rattle.std.specs.Prelude.{◌≡◌, ◌+◌, ◌≤◌, ◌<◌, [], ◌∷◌, ◌++◌, Ok, MatchResult, IfOk, sum_by};
ghost use Rattle.ev_graph.specs.declared.events.EventId.{EventId as AnyEvent};
ghost use Rattle.exec_text.specs.declared.fault.TextKind.TheVariants.{Number};
ghost use Rattle.exec_text.specs.declared.lines.Word.TheVariants as word;
ghost use Rattle.exec_text.specs.Reading.{Reads};
ghost use Rattle.exec_text.specs.Lines.{GivesValue, IsGiven, IsSmallGiven, IsWithin, Next, Rule, counts, with_value};

use crate::events::{events, sources};
use crate::exec_file::{ExecFile, Given, GivenThread};
use crate::fault::{LineFault, TextKind};
use crate::lines::{Word, input_of, stack_of, thread_of, words_of};
use crate::numbers::hex;
use crate::parts::Parts;
use ev_graph::{End, EventId, List, Stack};
use std::alloc::{AllocFailed, Global};

/// How many threads a text may have.
const MOST_THREADS: usize = 16;
/// How many accesses, inputs and outputs a text may have.
const MOST_ITEMS: u64 = 4096;
/// A line that may not come here.
const SHAPE: LineFault = LineFault::Kind(TextKind::Shape);

/// What the lines so far have said.
#[derive(Drop)]
pub enum Stage {
    /// Nothing.
    Begun,
    /// The title, and these stacks.
    Stacks(List<Stack>),
    /// The stacks, threads that are whole, and one that may have more values.
    Threads(List<Stack>, List<GivenThread>, GivenThread),
    /// All but the end.
    Ordered(ExecFile),
    /// The whole text.
    Ended(ExecFile),
}

impl Stage {
    /// What is said with this line too.
    pub fn next(self, alloc: Global, line: &[u8]) -> Result<Stage, LineFault>
        requires { IsWithin self }
        ensures { Reads (Next self line.now) IsWithin result }
    {
        match words_of(line) {
            Some((word, fields)) => self.say(alloc, word, fields),
            None => Err(SHAPE),
        }
    }

    /// What is said with a line of this word too.
    fn say(self, alloc: Global, word: Word, fields: Parts<'_>) -> Result<Stage, LineFault>
        requires { IsWithin self }
        ensures { Reads (Rule self word fields.entry) IsWithin result }
    {
        match self {
            Stage::Begun => title(alloc, word, fields),
            Stage::Stacks(stacks) => after_stacks(alloc, stacks, word, fields),
            Stage::Threads(stacks, done, thread) => {
                after_thread(alloc, stacks, done, thread, word, fields)
            }
            Stage::Ordered(file) => after_order(file, word, fields),
            Stage::Ended(_) => Err(SHAPE),
        }
    }
}

/// The title, which comes first.
fn title(alloc: Global, word: Word, fields: Parts<'_>) -> Result<Stage, LineFault>
    ensures { Reads (Rule Stage.Begun word fields.entry) IsWithin result }
{
    match (word, fields.one()) {
        (Word::Title, Some(b"1")) => Ok(Stage::Stacks(List::of(Vec::new(alloc)))),
        _ => Err(SHAPE),
    }
}

/// A line behind the title or a stack.
fn after_stacks(
    alloc: Global,
    stacks: List<Stack>,
    word: Word,
    fields: Parts<'_>,
) -> Result<Stage, LineFault>
    ensures { Reads (Rule (Stage.Stacks stacks) word fields.entry) IsWithin result }
{
    match word {
        Word::Stack => one_more_stack(stacks, fields),
        Word::Thread => first_thread(alloc, stacks, fields),
        _ => Err(SHAPE),
    }
}

fn one_more_stack(stacks: List<Stack>, fields: Parts<'_>) -> Result<Stage, LineFault>
    ensures { Reads (Rule (Stage.Stacks stacks) word.Stack fields.entry) IsWithin result }
{
    let number = stacks.as_slice().len();
    if number >= MOST_THREADS {
        return Err(SHAPE);
    }
    let Some(stack) = stack_of(fields, number) else {
        return Err(SHAPE);
    };
    let mut stacks = stacks.into_vec();
    stacks.push(stack)?;
    Ok(Stage::Stacks(List::of(stacks)))
}

/// A thread with no values yet, if the counts are within the limit with this one.
fn begun_thread(alloc: Global, before: u64, count: u64, end: End) -> Result<GivenThread, TextKind>
    requires { before ≤ 4096 }
    ensures { MatchResult result (λ t. (t ≡ record { count = count; end = end; values = [] }) × (before + count ≤ 4096))
        (λ kind. (kind ≡ Number) × (4096 < before + count)) }
{
    if count > MOST_ITEMS - before {
        return Err(TextKind::Number);
    }
    Ok(GivenThread {
        count: count as u32,
        end,
        values: List::of(Vec::new(alloc)),
    })
}

fn first_thread(alloc: Global, stacks: List<Stack>, fields: Parts<'_>) -> Result<Stage, LineFault>
    ensures { Reads (Rule (Stage.Stacks stacks) word.Thread fields.entry) IsWithin result }
{
    if stacks.as_slice().is_empty() {
        return Err(SHAPE);
    }
    let Some((count, end)) = thread_of(fields, 0) else {
        return Err(SHAPE);
    };
    let thread = begun_thread(alloc, 0, count, end)?;
    Ok(Stage::Threads(stacks, List::of(Vec::new(alloc)), thread))
}

/// A line behind a thread or one of its values.
fn after_thread(
    alloc: Global,
    stacks: List<Stack>,
    done: List<GivenThread>,
    thread: GivenThread,
    word: Word,
    fields: Parts<'_>,
) -> Result<Stage, LineFault>
    requires { IsWithin (Stage.Threads stacks done thread) }
    ensures { Reads (Rule (Stage.Threads stacks done thread) word fields.entry) IsWithin result }
{
    match word {
        Word::Thread => next_thread(alloc, stacks, done, thread, fields),
        Word::Read | Word::Input => one_more_value(alloc, stacks, done, thread, word, fields),
        Word::Order => order(alloc, stacks, done, thread, fields),
        _ => Err(SHAPE),
    }
}

/// The counts of the threads, together.
fn total(threads: &[GivenThread]) -> u64
    requires { counts threads.now ≤ 4096 }
    ensures { result ≡ counts threads.now }
{
    threads.iter().map(|thread| u64::from(thread.count)).sum()
}

fn next_thread(
    alloc: Global,
    stacks: List<Stack>,
    done: List<GivenThread>,
    thread: GivenThread,
    fields: Parts<'_>,
) -> Result<Stage, LineFault>
    requires { IsWithin (Stage.Threads stacks done thread) }
    ensures { Reads (Rule (Stage.Threads stacks done thread) word.Thread fields.entry) IsWithin result }
{
    let threads = stacks.as_slice().len();
    let number = done.as_slice().len();
    if threads <= 1 || number >= threads - 1 {
        return Err(SHAPE);
    }
    let Some((count, end)) = thread_of(fields, number + 1) else {
        return Err(SHAPE);
    };
    let before = total(done.as_slice()) + u64::from(thread.count);
    let next = begun_thread(alloc, before, count, end)?;
    let mut done = done.into_vec();
    done.push(thread)?;
    Ok(Stage::Threads(stacks, List::of(done), next))
}

/// The value of a read or an input.
fn given_of(alloc: Global, word: Word, fields: Parts<'_>) -> Result<Given, LineFault>
    ensures { Reads (IsGiven word fields.entry) IsSmallGiven result }
{
    match word {
        Word::Read => read_of(alloc, fields),
        Word::Input => match input_of(fields) {
            Some(value) => Ok(Given::Input(value)),
            None => Err(SHAPE),
        },
        _ => Err(SHAPE),
    }
}

fn read_of(alloc: Global, fields: Parts<'_>) -> Result<Given, LineFault>
    ensures { Reads (IsGiven word.Read fields.entry) IsSmallGiven result }
{
    let Some((number, list)) = fields.two() else {
        return Err(SHAPE);
    };
    let Some(value) = hex(number) else {
        return Err(SHAPE);
    };
    match sources(alloc, list) {
        Ok(sources) => Ok(Given::Read(value, sources)),
        Err(fault) => Err(fault),
    }
}

/// The thread with one value more.
fn with_one_more(thread: GivenThread, given: Given) -> Result<GivenThread, AllocFailed<Given>>
    ensures { IfOk result (λ longer. longer ≡ with_value thread given) }
{
    let GivenThread { count, end, values } = thread;
    let mut values = values.into_vec();
    values.push(given)?;
    let values = List::of(values);
    Ok(GivenThread { count, end, values })
}

fn one_more_value(
    alloc: Global,
    stacks: List<Stack>,
    done: List<GivenThread>,
    thread: GivenThread,
    word: Word,
    fields: Parts<'_>,
) -> Result<Stage, LineFault>
    requires gives { GivesValue word }
    requires within { IsWithin (Stage.Threads stacks done thread) }
    ensures { Reads (Rule (Stage.Threads stacks done thread) word fields.entry) IsWithin result }
{
    let given = given_of(alloc, word, fields)?;
    let thread = with_one_more(thread, given)?;
    Ok(Stage::Threads(stacks, done, thread))
}

/// The order of writes, behind the last thread.
fn order(
    alloc: Global,
    stacks: List<Stack>,
    done: List<GivenThread>,
    thread: GivenThread,
    fields: Parts<'_>,
) -> Result<Stage, LineFault>
    requires { IsWithin (Stage.Threads stacks done thread) }
    ensures { Reads (Rule (Stage.Threads stacks done thread) word.Order fields.entry) IsWithin result }
{
    let threads = stacks.as_slice().len();
    if threads == 0 || done.as_slice().len() != threads - 1 {
        return Err(SHAPE);
    }
    let co = events(alloc, fields)?;
    let mut threads = done.into_vec();
    threads.push(thread)?;
    let threads = List::of(threads);
    Ok(Stage::Ordered(ExecFile {
        stacks,
        threads,
        co,
    }))
}

/// The end, behind the order of writes.
fn after_order(file: ExecFile, word: Word, mut fields: Parts<'_>) -> Result<Stage, LineFault>
    requires { IsWithin (Stage.Ordered file) }
    ensures { Reads (Rule (Stage.Ordered file) word fields.entry) IsWithin result }
{
    if word == Word::End && fields.next().is_none() {
        Ok(Stage::Ended(file))
    } else {
        Err(SHAPE)
    }
}
