ghost use Rattle.std.specs.Prelude.{◌≡◌, ◌≢◌, ℕ, List as Sequence, [], ◌∷◌, length, ◌+◌, ◌<◌, IfSome, IfNone, MatchOption, position, ◌==◌};
ghost use Rattle.std.specs.Iterator.{YieldsFirstRef, item_count};
ghost use Rattle.exec_text.specs.Parts.{parts_at};

use std::marker::Model;

/// The place of the first such byte.
fn place_of(bytes: &[u8], at: u8) -> Option<usize>
    ensures { result ≡ position (λ byte. byte == at) bytes.now }
{
    bytes.iter().position(|byte| *byte == at)
}

/// The bytes before the first such byte, and those behind it.
pub fn cut(bytes: &[u8], at: u8) -> Option<(&[u8], &[u8])>
    ensures parts { MatchOption result (parts_at at bytes.now ≡ bytes.now ∷ [])
        (λ found. parts_at at bytes.now ≡ found.0.now ∷ parts_at at found.1.now) }
    ensures length { IfSome result (λ found. length bytes.now ≡ length found.0.now + 1 + length found.1.now) }
{
    let place = place_of(bytes, at)?;
    Some((&bytes[..place], &bytes[place + 1..]))
}

/// The parts of a text round each byte of one value, one after another.
///
/// Contracts see the list of the parts that are left.
#[derive(Drop)]
pub struct Parts<'a> {
    rest: Option<&'a [u8]>,
    at: u8,
}

impl<'a> Model for Parts<'a> {
    ghost use Rattle.std.specs.Prelude.{ℕ, List as Sequence};
    ghost use Rattle.exec_text.specs.Parts.{parts_of};

    ghost Value = { Sequence (Sequence ℕ) };

    ghost view = { λ parts. parts_of parts.at parts.rest };
}

impl<'a> Parts<'a> {
    /// The parts of a text.
    pub fn of(text: &'a [u8], at: u8) -> Parts<'a>
        ensures { result ≡ parts_at at text.now }
    {
        Parts {
            rest: Some(text),
            at,
        }
    }

    /// The one part that is left.
    pub fn one(mut self) -> Option<&'a [u8]>
        ensures { MatchOption result ((a : Sequence ℕ) → self.entry ≢ a ∷ []) (λ found. self.entry ≡ found.now ∷ []) }
    {
        let a = self.next()?;
        match self.next() {
            None => Some(a),
            Some(_) => None,
        }
    }

    /// The two parts that are left.
    pub fn two(mut self) -> Option<(&'a [u8], &'a [u8])>
        ensures { MatchOption result ((a b : Sequence ℕ) → self.entry ≢ a ∷ b ∷ [])
            (λ found. self.entry ≡ found.0.now ∷ found.1.now ∷ []) }
    {
        let a = self.next()?;
        let b = self.one()?;
        Some((a, b))
    }

    /// The three parts that are left.
    pub fn three(mut self) -> Option<(&'a [u8], &'a [u8], &'a [u8])>
        ensures { MatchOption result ((a b c : Sequence ℕ) → self.entry ≢ a ∷ b ∷ c ∷ [])
            (λ found. self.entry ≡ found.0.now ∷ found.1.now ∷ found.2.now ∷ []) }
    {
        let a = self.next()?;
        let (b, c) = self.two()?;
        Some((a, b, c))
    }
}

impl<'a> Iterator for Parts<'a> {
    type Item = &'a [u8];

    ghost next_gives = { YieldsFirstRef (λ parts. parts) };

    ghost remaining = { item_count (λ parts. parts) };

    fn next(&mut self) -> Option<&'a [u8]> {
        let text = self.rest?;
        match cut(text, self.at) {
            Some((part, rest)) => {
                self.rest = Some(rest);
                Some(part)
            }
            None => {
                self.rest = None;
                Some(text)
            }
        }
    }
}
