ghost use Rattle.std.specs.Prelude.{◌≡◌, ◌≢◌, ℕ, MatchOption, List as Sequence, [], ◌∷◌};
ghost use Rattle.ev_graph.specs.declared.execution.Stack.{Stack as AnyStack};
ghost use Rattle.ev_graph.specs.declared.events.End.{End as AnyEnd};
ghost use Rattle.exec_text.specs.declared.exec_file.GivenThread.{GivenThread as AnyThread};
ghost use Rattle.exec_text.specs.declared.lines.Word.{Word as AnyWord};
ghost use Rattle.exec_text.specs.Parts.{parts_at};
ghost use Rattle.exec_text.specs.Numbers.{IsDecimal};
ghost use Rattle.exec_text.specs.Lines.{spelled, IsEndWord, IsStack, IsThread, IsInput};

use crate::numbers::{decimal, hex};
use crate::parts::Parts;
use ev_graph::{End, Stack, TrapKind};

/// The first field of a line, which says what line it is.
#[derive(Clone, Copy, PartialEq, Eq)]
pub enum Word {
    Title,
    Stack,
    Thread,
    Read,
    Input,
    Order,
    End,
}

/// The word that is written so.
fn word_of(field: &[u8]) -> Option<Word>
    ensures { MatchOption result ((w : AnyWord) → field.now ≢ spelled w) (λ w. field.now ≡ spelled w) }
{
    match field {
        b"lasagne-exec" => Some(Word::Title),
        b"stack" => Some(Word::Stack),
        b"thread" => Some(Word::Thread),
        b"r" => Some(Word::Read),
        b"i" => Some(Word::Input),
        b"co" => Some(Word::Order),
        b"end" => Some(Word::End),
        _ => None,
    }
}

/// The word of a line, and its other fields.
pub fn words_of(line: &[u8]) -> Option<(Word, Parts<'_>)>
    ensures { MatchOption result ((w : AnyWord) (fields : Sequence (Sequence ℕ)) → parts_at 32 line.now ≢ spelled w ∷ fields)
        (λ found. parts_at 32 line.now ≡ spelled found.0 ∷ found.1) }
{
    let mut fields = Parts::of(line, b' ');
    let word = word_of(fields.next()?)?;
    Some((word, fields))
}

/// The end that is written so.
fn end_of(field: &[u8]) -> Option<End>
    ensures { MatchOption result ((end : AnyEnd) → IsEndWord field.now end → ⊥) (IsEndWord field.now) }
{
    match field {
        b"running" => Some(End::Running),
        b"halted" => Some(End::Halted),
        b"badaccess" => Some(End::Trap(TrapKind::BadAccess)),
        b"divide" => Some(End::Trap(TrapKind::Divide)),
        b"invalid" => Some(End::Trap(TrapKind::Invalid)),
        b"badreturn" => Some(End::Trap(TrapKind::BadReturn)),
        _ => None,
    }
}

/// Whether the field writes this number.
fn is_number(field: &[u8], number: usize) -> Option<()>
    ensures { MatchOption result (IsDecimal field.now number → ⊥) (λ _. IsDecimal field.now number) }
{
    if decimal(field)? == number as u64 {
        Some(())
    } else {
        None
    }
}

/// The stack of this thread.
pub fn stack_of(fields: Parts<'_>, number: usize) -> Option<Stack>
    ensures { MatchOption result ((s : AnyStack) → IsStack number fields.entry s → ⊥) (IsStack number fields.entry) }
{
    let (thread, lo, hi) = fields.three()?;
    is_number(thread, number)?;
    let lo = hex(lo)?;
    let hi = hex(hi)?;
    Some(Stack { lo, hi })
}

/// The count and the end of this thread.
pub fn thread_of(fields: Parts<'_>, number: usize) -> Option<(u64, End)>
    ensures { MatchOption result ((t : AnyThread) → IsThread number fields.entry t → ⊥)
        (λ found. IsThread number fields.entry (record { count = found.0; end = found.1; values = [] })) }
{
    let (thread, count, end) = fields.three()?;
    is_number(thread, number)?;
    let count = decimal(count)?;
    let end = end_of(end)?;
    Some((count, end))
}

/// The value of an input.
pub fn input_of(fields: Parts<'_>) -> Option<u64>
    ensures { MatchOption result ((value : ℕ) → IsInput fields.entry value → ⊥) (IsInput fields.entry) }
{
    hex(fields.one()?)
}
