ghost use Rattle.std.specs.Prelude.{◌≡◌, ◌≢◌, codes, MatchBool};
ghost use Rattle.lasagne.specs.Command.{World, Answers, EndsPlan, EndsTranslate, EndsTry, EndsWritten, IsSaid};
ghost use Rattle.lasagne.specs.Shape.{AreRounds};
ghost use Rattle.lasagne.specs.Texts.{refused_line};
ghost use Rattle.lasagne.specs.declared.command.Status.TheVariants.{Refused};

use crate::plan::plan_text;
use crate::rounds::rounds_of;
use crate::texts::{USAGE, refused_line, translated_line, tried_line};
use crate::word::Word;
use elf_read::{FileFault, TransFault};
use gen_input::make;
use lz_ports::{GetFault, PutFault, Shelf, Sink, SinkFault};
use std::alloc::Global;
use translate_core::translate;

/// How a call of `run` ended.
#[derive(Clone, Copy, Debug, PartialEq, Eq)]
pub enum Status {
    Done,
    Refused,
    Usage,
    ReadFailed,
    WriteFailed,
    NoMemory,
    NotExplained,
    OutFailed,
}

/// How many bytes of an input are read at most.
const INPUT_LIMIT: u64 = 67_108_864;

/// The name under which the image of a made file is put.
const TRY_NAME: &str = "try.elf";

fn is_translate(word: &Word) -> bool
    ensures { MatchBool result (word.now ≡ codes "translate") (word.now ≢ codes "translate") }
{
    word.as_str() == "translate"
}

fn is_plan(word: &Word) -> bool
    ensures { MatchBool result (word.now ≡ codes "plan") (word.now ≢ codes "plan") }
{
    word.as_str() == "plan"
}

fn is_try(word: &Word) -> bool
    ensures { MatchBool result (word.now ≡ codes "try") (word.now ≢ codes "try") }
{
    word.as_str() == "try"
}

/// Writes a line that tells how the call ends. What the call ends with stands even where the write
/// fails, but for want of memory.
fn say<O: Sink>(out: &mut O, text: &[u8], status: Status) -> Status
    ensures { IsSaid text.now status (O.taken out.old) (O.faults out.old) (O.taken out.new) (O.faults out.new) result }
{
    match out.write_all(text) {
        Err(SinkFault::NoMemory) => Status::NoMemory,
        _ => status,
    }
}

/// Writes the line that tells why a file is refused; want of memory is told by the status alone.
fn refuse<O: Sink>(alloc: Global, out: &mut O, fault: FileFault) -> Status
    ensures { IsSaid (refused_line fault) Refused (O.taken out.old) (O.faults out.old) (O.taken out.new) (O.faults out.new) result }
{
    match refused_line(alloc, fault) {
        Ok(line) => say(out, line.as_bytes(), Status::Refused),
        Err(_) => Status::NoMemory,
    }
}

/// Puts an image under a name, and then writes a line.
fn put_image<H: Shelf, O: Sink>(
    image: &[u8],
    to: &str,
    line: &[u8],
    shelf: &mut H,
    out: &mut O,
) -> Status
    ensures { EndsWritten result image.now to.now line.now
        (record { files = H.files shelf.old; taken = O.taken out.old; get_faults = H.get_faults shelf.old; put_faults = H.put_faults shelf.old; sink_faults = O.faults out.old })
        (record { files = H.files shelf.new; taken = O.taken out.new; get_faults = H.get_faults shelf.new; put_faults = H.put_faults shelf.new; sink_faults = O.faults out.new }) }
{
    match shelf.put(to, image) {
        Ok(()) => {}
        Err(PutFault::Failed) => return Status::WriteFailed,
        Err(PutFault::NoMemory) => return Status::NoMemory,
    }
    match out.write_all(line) {
        Ok(()) => Status::Done,
        Err(SinkFault::Failed) => Status::OutFailed,
        Err(SinkFault::NoMemory) => Status::NoMemory,
    }
}

/// Translates the file under one name, and puts the image under another.
fn translate_command<H: Shelf, O: Sink>(
    alloc: Global,
    from: &str,
    to: &str,
    shelf: &mut H,
    out: &mut O,
) -> Status
    ensures { EndsTranslate result from.now to.now
        (record { files = H.files shelf.old; taken = O.taken out.old; get_faults = H.get_faults shelf.old; put_faults = H.put_faults shelf.old; sink_faults = O.faults out.old })
        (record { files = H.files shelf.new; taken = O.taken out.new; get_faults = H.get_faults shelf.new; put_faults = H.put_faults shelf.new; sink_faults = O.faults out.new }) }
{
    let bytes = match shelf.get(alloc, from, INPUT_LIMIT) {
        Ok(bytes) => bytes,
        Err(GetFault::Failed) => return Status::ReadFailed,
        Err(GetFault::TooLong) => return refuse(alloc, out, FileFault::TooLong),
        Err(GetFault::NoMemory) => return Status::NoMemory,
    };
    let made = match translate(alloc, &bytes) {
        Ok(made) => made,
        Err(TransFault::File(fault)) => return refuse(alloc, out, fault),
        Err(TransFault::NoMemory) => return Status::NoMemory,
    };
    let Ok(line) = translated_line(alloc, made.summary) else {
        return Status::NoMemory;
    };
    put_image(made.file.as_slice(), to, line.as_bytes(), shelf, out)
}

/// Makes the file of so many rounds, translates it, and puts its image. A made file has no fault.
fn try_command<H: Shelf, O: Sink>(alloc: Global, rounds: u32, shelf: &mut H, out: &mut O) -> Status
    requires { AreRounds rounds }
    ensures { EndsTry result rounds
        (record { files = H.files shelf.old; taken = O.taken out.old; get_faults = H.get_faults shelf.old; put_faults = H.put_faults shelf.old; sink_faults = O.faults out.old })
        (record { files = H.files shelf.new; taken = O.taken out.new; get_faults = H.get_faults shelf.new; put_faults = H.put_faults shelf.new; sink_faults = O.faults out.new }) }
{
    let Ok(input) = make(alloc, rounds) else {
        return Status::NoMemory;
    };
    let made = match translate(alloc, &input) {
        Ok(made) => made,
        Err(TransFault::File(_why)) => unreachable!(),
        Err(TransFault::NoMemory) => return Status::NoMemory,
    };
    let Ok(line) = tried_line(alloc, rounds, made.summary) else {
        return Status::NoMemory;
    };
    put_image(made.file.as_slice(), TRY_NAME, line.as_bytes(), shelf, out)
}

/// Writes the fence plan of the file under a name, and puts nothing.
fn plan_command<H: Shelf, O: Sink>(alloc: Global, from: &str, shelf: &mut H, out: &mut O) -> Status
    ensures { EndsPlan result from.now
        (record { files = H.files shelf.old; taken = O.taken out.old; get_faults = H.get_faults shelf.old; put_faults = H.put_faults shelf.old; sink_faults = O.faults out.old })
        (record { files = H.files shelf.new; taken = O.taken out.new; get_faults = H.get_faults shelf.new; put_faults = H.put_faults shelf.new; sink_faults = O.faults out.new }) }
{
    let input = match shelf.get(alloc, from, INPUT_LIMIT) {
        Ok(bytes) => bytes,
        Err(GetFault::Failed) => return Status::ReadFailed,
        Err(GetFault::TooLong) => return refuse(alloc, out, FileFault::TooLong),
        Err(GetFault::NoMemory) => return Status::NoMemory,
    };
    let made = match translate(alloc, &input) {
        Ok(made) => made,
        Err(TransFault::File(why)) => return refuse(alloc, out, why),
        Err(TransFault::NoMemory) => return Status::NoMemory,
    };
    let Ok(text) = plan_text(alloc, made.plan.as_slice(), made.summary) else {
        return Status::NoMemory;
    };
    match out.write_all(text.as_bytes()) {
        Ok(()) => Status::Done,
        Err(SinkFault::Failed) => Status::OutFailed,
        Err(SinkFault::NoMemory) => Status::NoMemory,
    }
}

/// Serves the command that the words tell.
///
/// `translate IN OUT` translates the file under the name IN, puts its image under the name OUT, and
/// writes a line that sums it up. `plan IN` writes the fence plan of the file under the name IN, and
/// puts nothing. `try N` makes an input file of N rounds, puts its image under the name `try.elf`, and
/// writes a line that sums it up.
pub fn run<H: Shelf, O: Sink>(alloc: Global, words: &[Word], shelf: &mut H, out: &mut O) -> Status
    ensures { Answers result words.now
        (record { files = H.files shelf.old; taken = O.taken out.old; get_faults = H.get_faults shelf.old; put_faults = H.put_faults shelf.old; sink_faults = O.faults out.old })
        (record { files = H.files shelf.new; taken = O.taken out.new; get_faults = H.get_faults shelf.new; put_faults = H.put_faults shelf.new; sink_faults = O.faults out.new }) }
{
    match words {
        [verb, from, to] if is_translate(verb) => {
            translate_command(alloc, from.as_str(), to.as_str(), shelf, out)
        }
        [verb, from] if is_plan(verb) => plan_command(alloc, from.as_str(), shelf, out),
        [verb, number] if is_try(verb) => match rounds_of(number) {
            Some(rounds) => try_command(alloc, rounds, shelf, out),
            None => say(out, USAGE, Status::Usage),
        },
        _ => say(out, USAGE, Status::Usage),
    }
}
