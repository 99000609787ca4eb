ghost use Rattle.std.specs.Prelude.{◌≡◌, ◌+◌, ◌<◌, ◌≤◌, length, drop};
ghost use Rattle.x64_decode.specs.Reading.{IsWithin, agrees, chosen, digit_of, first_byte, merge, others_agree, row_reading, rows_reading};
ghost use Rattle.x64_decode.specs.Spelling.{allows, before_allows, code_bytes, digit_allows, memory_allows, modrm_allows, must_be_memory, takes_memory, takes_register};
ghost use Rattle.x64_decode.specs.Table.{table};

use crate::bytes::{byte_or, bytes_from, bytes_to};
use crate::operands::is_memory;
use crate::row::{Before, Code, Front, Lock, Place, Row};
use crate::rows::rows;
use x64_syntax::Instr;

/// How far bytes go towards a spelling.
#[derive(Clone, Copy)]
pub enum Reading {
    /// They begin with an instruction, of so many bytes.
    Done(Instr, usize),
    /// They begin a spelling that has at least so many bytes more.
    More(usize),
    /// They begin none.
    Bad,
}

impl Reading {
    /// The first that is done, and else the one that wants fewer bytes.
    fn merge(self, other: Reading) -> Reading
        ensures { result ≡ merge self other }
    {
        match self {
            Reading::Done(_, _) => self,
            Reading::Bad => other,
            Reading::More(missing) => match other {
                Reading::Done(_, _) => other,
                Reading::More(less) => Reading::More(missing.min(less)),
                Reading::Bad => self,
            },
        }
    }
}

impl Code {
    /// How many bytes there are, 1 to 4.
    fn len(self) -> usize
        ensures value { result ≡ length (code_bytes self) }
        ensures small { result ≤ 4 }
    {
        match self {
            Code::One(_) => 1,
            Code::Two(_, _) => 2,
            Code::Three(_, _, _) => 3,
            Code::Four(_, _, _, _) => 4,
        }
    }

    fn first_byte(self) -> u8
        ensures { result ≡ first_byte self }
    {
        match self {
            Code::One(first)
            | Code::Two(first, _)
            | Code::Three(first, _, _)
            | Code::Four(first, _, _, _) => first,
        }
    }

    fn others_agree(self, bytes: &[u8]) -> bool
        ensures { result ≡ others_agree self bytes.now }
    {
        match self {
            Code::One(_) => true,
            Code::Two(_, b) => byte_or(bytes, 1, b) == b,
            Code::Three(_, b, c) => byte_or(bytes, 1, b) == b && byte_or(bytes, 2, c) == c,
            Code::Four(_, b, c, d) => {
                byte_or(bytes, 1, b) == b && byte_or(bytes, 2, c) == c && byte_or(bytes, 3, d) == d
            }
        }
    }

    /// Whether the bytes that are there agree with the code. Most rows are passed over by the first.
    fn agrees(self, bytes: &[u8]) -> bool
        ensures { result ≡ agrees self bytes.now }
    {
        let first = self.first_byte();
        byte_or(bytes, 0, first) == first && self.others_agree(bytes)
    }
}

impl Place {
    fn must_be_memory(self) -> bool
        ensures { result ≡ must_be_memory self }
    {
        matches!(self, Place::Memory(_))
    }
}

impl Before {
    fn allows(self, front: &Front) -> bool
        ensures { result ≡ before_allows self front.now }
    {
        match self {
            Before::Anything => true,
            Before::NoWord => !front.word,
            Before::Nothing => front.length == 0,
            Before::WithW => front.rex_bit(Front::W) == 1,
            Before::WithoutW => front.rex_bit(Front::W) == 0,
            Before::WithB => front.rex_bit(Front::B) == 1,
            Before::WithoutB => front.rex_bit(Front::B) == 0,
        }
    }
}

impl Lock {
    fn allows_memory(self, locked: bool) -> bool
        ensures { result ≡ memory_allows self locked }
    {
        match self {
            Lock::Never => !locked,
            Lock::WithMemory => true,
            Lock::AlwaysWithMemory => locked,
        }
    }
}

impl Row {
    #[tactic(auto, unfolding(crate::specs::Spelling::takes_memory))]
    fn takes_memory(&self, front: &Front) -> bool
        ensures { result ≡ takes_memory front.now self.now }
    {
        self.lock.allows_memory(front.lock)
    }

    #[tactic(auto, unfolding(crate::specs::Spelling::takes_register))]
    fn takes_register(&self, front: &Front) -> bool
        ensures { result ≡ takes_register front.now self.now }
    {
        !front.lock && !self.to.must_be_memory() && !self.from.must_be_memory()
    }

    fn digit_allows(&self, modrm: u8) -> bool
        ensures { result ≡ digit_allows self.now.digit modrm }
    {
        match self.digit {
            None => true,
            Some(digit) => modrm / 8 % 8 == digit % 8,
        }
    }

    #[tactic(auto, unfolding(crate::specs::Spelling::modrm_allows))]
    fn modrm_allows(&self, front: &Front, modrm: u8) -> bool
        ensures { result ≡ modrm_allows front.now self.now modrm }
    {
        self.digit_allows(modrm)
            && if is_memory(modrm) {
                self.takes_memory(front)
            } else {
                self.takes_register(front)
            }
    }

    /// Whether the row's instruction may stand behind a front, with this ModRM byte if it has one.
    #[tactic(auto, unfolding(crate::specs::Spelling::allows))]
    fn allows(&self, front: &Front, modrm: u8) -> bool
        ensures { result ≡ allows front.now self.now modrm }
    {
        self.before.allows(front)
            && if self.has_modrm() {
                self.modrm_allows(front, modrm)
            } else {
                !front.lock
            }
    }

    fn digit_of(&self) -> u8
        ensures value { result ≡ digit_of self.now.digit }
        ensures small { result < 8 }
    {
        match self.digit {
            None => 0,
            Some(digit) => digit % 8,
        }
    }

    /// A ModRM byte that the row allows behind a front wherever it allows any.
    #[tactic(auto, unfolding(crate::specs::Reading::chosen))]
    fn chosen(&self, front: &Front) -> u8
        ensures { result ≡ chosen front.now self.now }
    {
        let digit = 8 * self.digit_of();
        if self.takes_memory(front) {
            digit
        } else {
            0xC0 + digit
        }
    }

    /// How far the bytes behind a front go towards what the row spells.
    #[tactic(auto, unfolding(crate::specs::Reading::row_reading))]
    fn read(&self, front: &Front, body: &[u8]) -> Reading
        ensures value { result ≡ row_reading front.now self.now body.now }
        ensures within { IsWithin (length body.now) result }
    {
        let rest = bytes_from(body, self.code.len());
        let size = self.rest_size(front, rest);
        let whole = self.code.len() + size;
        if !(self.code.agrees(body) && self.allows(front, byte_or(rest, 0, self.chosen(front)))) {
            Reading::Bad
        } else if whole <= body.len() {
            Reading::Done(self.meaning(front, bytes_to(rest, size)), whole)
        } else {
            Reading::More(whole - body.len())
        }
    }
}

/// How far the bytes behind a front go towards a spelling of any row.
pub fn read_rows(front: &Front, body: &[u8]) -> Reading
    ensures value { result ≡ rows_reading front.now table body.now }
    ensures within { IsWithin (length body.now) result }
{
    let mut reading = Reading::Bad;
    for row in rows() {
        if row.code.agrees(body) {
            reading = reading.merge(row.read(front, body));
        }
    }
    reading
}
