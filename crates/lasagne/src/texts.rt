ghost use Rattle.std.specs.Prelude.{◌≡◌, ◌≢◌, ◌++◌, codes, decimal, map, IfOk, OnOk, string_bytes};
ghost use Rattle.lasagne.specs.Texts.{counts_text, file_fault_text, hex, kind_name, refused_line, summary_text, translated_line, tried_line};

use elf_read::{BadCodeKind, CodeFault, FileFault};
use std::alloc::{AllocError, Global};
use translate_core::Summary;

/// The line that tells the shapes of commands.
pub const USAGE: &[u8] = b"usage: lasagne translate IN OUT, match IN OUT EXEC, plan IN, try N\n";

fn push_count(alloc: Global, text: &mut String, count: u32, name: &str) -> Result<(), AllocError>
    ensures { OnOk result (string_bytes text.new ≡ string_bytes text.old ++ (decimal count ++ name.now)) }
{
    let digits = count.to_string(alloc)?;
    text.push_str(digits.as_str())?;
    text.push_str(name)?;
    Ok(())
}

fn push_counts(alloc: Global, text: &mut String, counts: &[(u32, &str)]) -> Result<(), AllocError>
    ensures { OnOk result (string_bytes text.new ≡ string_bytes text.old ++ counts_text (map (λ c. (c.0, c.1.now)) counts.now)) }
{
    for (count, name) in counts {
        push_count(alloc, text, *count, name)?;
    }
    Ok(())
}

/// Writes what is counted, behind the text.
pub fn push_summary(alloc: Global, text: &mut String, s: Summary) -> Result<(), AllocError>
    ensures { OnOk result (string_bytes text.new ≡ string_bytes text.old ++ summary_text s) }
{
    let counts = [
        (s.threads, " threads, "),
        (s.instructions, " instructions, "),
        (s.blocks, " blocks, "),
        (s.accesses, " accesses, "),
        (s.private, " private, "),
        (s.frm, " frm, "),
        (s.fww, " fww, "),
        (s.fsc, " fsc"),
    ];
    push_counts(alloc, text, &counts)
}

/// The line that tells of a translation.
pub fn translated_line(alloc: Global, s: Summary) -> Result<String, AllocError>
    ensures { IfOk result (λ text. string_bytes text ≡ translated_line s) }
{
    let mut text = String::from_str(alloc, "translated ")?;
    push_summary(alloc, &mut text, s)?;
    text.push_str("\n")?;
    Ok(text)
}

/// The line that tells of the translation of a made file.
pub fn tried_line(alloc: Global, rounds: u32, s: Summary) -> Result<String, AllocError>
    ensures { IfOk result (λ text. string_bytes text ≡ tried_line rounds s) }
{
    let mut text = format!(in alloc; "tried {rounds}: ")?;
    push_summary(alloc, &mut text, s)?;
    text.push_str("\n")?;
    Ok(text)
}

fn kind_name(kind: BadCodeKind) -> &'static str
    ensures { result.now ≡ kind_name kind }
{
    match kind {
        BadCodeKind::Listed => "Listed",
        BadCodeKind::Outside => "Outside",
        BadCodeKind::Cut => "Cut",
        BadCodeKind::Unknown => "Unknown",
        BadCodeKind::TooLong => "TooLong",
    }
}

/// A name and a number in decimal.
fn numbered(alloc: Global, name: &str, number: u64) -> Result<String, AllocError>
    ensures { IfOk result (λ text. string_bytes text ≡ name.now ++ decimal number) }
{
    format!(in alloc; "{name}{number}")
}

/// A name and an address in hexadecimal.
fn addressed(alloc: Global, name: &str, address: u64) -> Result<String, AllocError>
    ensures { IfOk result (λ text. string_bytes text ≡ name.now ++ hex address) }
{
    format!(in alloc; "{name}{address:x}")
}

fn code_fault_text(alloc: Global, fault: CodeFault) -> Result<String, AllocError>
    ensures { IfOk result (λ text. string_bytes text ≡ codes "BadCode " ++ (hex fault.address ++ (codes " " ++ kind_name fault.kind))) }
{
    let mut text = addressed(alloc, "BadCode ", fault.address)?;
    text.push_str(" ")?;
    text.push_str(kind_name(fault.kind))?;
    Ok(text)
}

/// The name of a fault of files, with its place.
fn file_fault_text(alloc: Global, fault: FileFault) -> Result<String, AllocError>
    ensures { IfOk result (λ text. string_bytes text ≡ file_fault_text fault) }
{
    match fault {
        FileFault::TooLong => String::from_str(alloc, "TooLong"),
        FileFault::Short => String::from_str(alloc, "Short"),
        FileFault::Magic => String::from_str(alloc, "Magic"),
        FileFault::Class => String::from_str(alloc, "Class"),
        FileFault::BadType(kind) => numbered(alloc, "BadType ", u64::from(kind)),
        FileFault::Machine(machine) => numbered(alloc, "Machine ", u64::from(machine)),
        FileFault::ProgramTable => String::from_str(alloc, "ProgramTable"),
        FileFault::Segment(i) => numbered(alloc, "Segment ", u64::from(i)),
        FileFault::TooBig => String::from_str(alloc, "TooBig"),
        FileFault::SymbolTable => String::from_str(alloc, "SymbolTable"),
        FileFault::NoThread => String::from_str(alloc, "NoThread"),
        FileFault::DoubleName(i) => numbered(alloc, "DoubleName ", i),
        FileFault::TooMuchCode => String::from_str(alloc, "TooMuchCode"),
        FileFault::BadCode(fault) => code_fault_text(alloc, fault),
        FileFault::Indirect(a) => addressed(alloc, "Indirect ", a),
        FileFault::Overlap(a) => addressed(alloc, "Overlap ", a),
        FileFault::TableEntered(a) => addressed(alloc, "TableEntered ", a),
        FileFault::UndefinedFlag(a) => addressed(alloc, "UndefinedFlag ", a),
    }
}

/// The line that tells why a file is refused.
pub fn refused_line(alloc: Global, fault: FileFault) -> Result<String, AllocError>
    ensures { IfOk result (λ text. string_bytes text ≡ refused_line fault) }
{
    let mut text = String::from_str(alloc, "refused ")?;
    text.push_str(file_fault_text(alloc, fault)?.as_str())?;
    text.push_str("\n")?;
    Ok(text)
}
