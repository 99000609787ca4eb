ghost use Rattle.std.specs.Prelude.{◌≡◌, ◌≢◌, ◌≤◌, ◌↔◌, ℕ, decimal, slice_index, IsTrue, MatchOption};
ghost use Rattle.lasagne.specs.Shape.{AreRounds};

use crate::word::Word;

/// The most rounds that a made file may have.
const MOST_ROUNDS: u32 = 20_000;

/// Whether a text begins with a digit that is not 0.
fn begins_with_digit(text: &[u8]) -> bool
    ensures { IsTrue result ↔ ((49 ≤ slice_index text.now 0) × (slice_index text.now 0 ≤ 57)) }
{
    matches!(text, [b'1'..=b'9', ..])
}

/// The number of rounds that a word writes, in decimal without leading zeros, where it writes one.
pub fn rounds_of(word: &Word) -> Option<u32>
    ensures { MatchOption result ((n : ℕ) → AreRounds n → word.now ≢ decimal n) (λ n. AreRounds n × (word.now ≡ decimal n)) }
{
    let text = word.as_str();
    if !begins_with_digit(text.as_bytes()) {
        return None;
    }
    match text.parse::<u32>() {
        Ok(rounds) if 1 <= rounds && rounds <= MOST_ROUNDS => Some(rounds),
        _ => None,
    }
}
