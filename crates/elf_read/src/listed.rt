ghost use Rattle.std.specs.Prelude.{◌≡◌, ◌≢◌, ◌<◌, ◌≤◌, ℕ, decimal, IfSome, IfNone, MatchBool};
ghost use Rattle.elf_read.specs.FileFaults.{IsListedName};
ghost use Rattle.elf_read.specs.Listed.{name_of, IsListed};
ghost use Rattle.elf_read.specs.declared.listed.Listed.TheVariants.{Thread};

use crate::bytes::is_same;

/// A name that counts among the symbols of a file.
#[derive(Clone, Copy, PartialEq, Eq)]
pub enum Listed {
    /// `lsg_input`
    Input,
    /// `lsg_output`
    Output,
    /// `thread_` and the number in decimal, from 0 to 15
    Thread(u8),
}

impl Listed {
    /// Whether this is the name of the first thread.
    pub fn is_first_thread(self) -> bool
        ensures { MatchBool result (self ≡ Thread 0) (self ≢ Thread 0) }
    {
        match self {
            Listed::Thread(number) => number == 0,
            Listed::Input | Listed::Output => false,
        }
    }
}

/// Whether the digits are those of a number from 0 to 15, in decimal without a leading zero.
fn is_decimal(digits: &[u8], number: u8) -> bool
    requires { number < 16 }
    ensures { MatchBool result (digits.now ≡ decimal number) (digits.now ≢ decimal number) }
{
    if number < 10 {
        is_same(digits, &[b'0' + number])
    } else {
        is_same(digits, &[b'1', b'0' + (number - 10)])
    }
}

/// The number from 0 to 15 that has these digits, if there is one.
fn thread_number(digits: &[u8]) -> Option<u8>
    ensures none { IfNone result ((k : ℕ) → k < 16 → digits.now ≢ decimal k) }
    ensures some { IfSome result (λ k. (k < 16) × (digits.now ≡ decimal k)) }
{
    for number in 0..16 {
        if is_decimal(digits, number) {
            return Some(number);
        }
    }
    None
}

/// The listed name that a name is, if it is one.
pub fn as_listed(name: &[u8]) -> Option<Listed>
    ensures none { IfNone result (IsListedName name.now → ⊥) }
    ensures some { IfSome result (λ found. IsListed found × (name.now ≡ name_of found)) }
{
    if is_same(name, b"lsg_input") {
        return Some(Listed::Input);
    }
    if is_same(name, b"lsg_output") {
        return Some(Listed::Output);
    }
    let number = thread_number(name.strip_prefix(b"thread_")?)?;
    Some(Listed::Thread(number))
}
