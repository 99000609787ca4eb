ghost use Rattle.std.specs.Prelude.{◌≡◌, ◌≤◌, IfOk, length, take};
ghost use Rattle.x64_decode.specs.Reading.{IsWithin, reading_of};
ghost use Rattle.x64_syntax.specs.Formed.{IsFormed};
ghost use Rattle.x64_decode.specs.Spelling.{Answers, IsLengthWithin, SpellingsStandAlone};

use crate::bytes::{bytes_from, bytes_to};
use crate::front::front_at;
use crate::reading::{Reading, read_rows};
use x64_syntax::Instr;

#[cfg(test)]
mod tests;

/// The most bytes that an instruction has.
const LIMIT: usize = 15;

/// Why bytes begin with no instruction.
#[derive(Clone, Copy, Debug, PartialEq, Eq)]
pub enum DecodeFault {
    /// They are cut off: with more bytes, 15 in all at most, they are an instruction.
    Cut,
    /// They begin no instruction of any length.
    Unknown,
    /// They begin instructions of more than 15 bytes alone.
    TooLong,
}

/// The instruction that begins the bytes, and its length. It takes no memory.
///
/// Only the first 15 bytes are looked at. `CallerLemmas` says what an answer tells of the bytes as a whole.
pub fn decode_one(bytes: &[u8]) -> Result<(Instr, u8), DecodeFault>
    ensures exact { Answers (take 15 bytes.now) result }
    ensures length { IfOk result (λ r. IsLengthWithin (length bytes.now) r.1) }
    ensures formed { IfOk result (λ r. IsFormed r.0) }
{
    answer(bytes_to(bytes, LIMIT))
}

/// The answer for at most 15 bytes.
fn answer(bytes: &[u8]) -> Result<(Instr, u8), DecodeFault>
    requires { length bytes.now ≤ 15 }
    ensures exact { Answers bytes.now result }
    ensures length { IfOk result (λ r. IsLengthWithin (length bytes.now) r.1) }
    ensures formed { IfOk result (λ r. IsFormed r.0) }
{
    match read(bytes) {
        Reading::Done(instr, length) => Ok((instr, length as u8)),
        Reading::More(missing) => {
            if missing <= LIMIT - bytes.len() {
                Err(DecodeFault::Cut)
            } else {
                Err(DecodeFault::TooLong)
            }
        }
        Reading::Bad => Err(DecodeFault::Unknown),
    }
}

/// How far the bytes go towards a spelling, prefixes and REX included.
#[tactic(auto, unfolding(crate::specs::Reading::reading_of))]
fn read(bytes: &[u8]) -> Reading
    ensures value { result ≡ reading_of bytes.now }
    ensures within { IsWithin (length bytes.now) result }
{
    let front = front_at(bytes);
    match read_rows(&front, bytes_from(bytes, front.length)) {
        Reading::Done(instr, length) => Reading::Done(instr, front.length + length),
        Reading::More(missing) => Reading::More(missing),
        Reading::Bad => Reading::Bad,
    }
}

/// The law of spellings: no spelling begins another, and none means two instructions.
pub fn spellings_stand_alone()
    ensures { SpellingsStandAlone }
{}
