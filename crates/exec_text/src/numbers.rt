ghost use Rattle.std.specs.Prelude.{◌≡◌, ℕ, ◌≤◌, ◌<◌, ◌^◌, ◌==◌, Bool, IsTrue, ◌↔◌, length, slice_index, MatchOption};
ghost use Rattle.std.specs.Char.{digit_value};
ghost use Rattle.exec_text.specs.Numbers.{IsDigit, IsNumber, IsDecimal, IsHex};

/// The value of a digit of the radix; letters are lower-case.
fn digit(byte: u8, radix: u64) -> Option<u64>
    requires { radix ≤ 16 }
    ensures { MatchOption result (IsDigit radix byte → ⊥) (λ value. IsDigit radix byte × (value ≡ digit_value byte)) }
{
    let value = match byte {
        b'0'..=b'9' => byte - b'0',
        b'a'..=b'f' => byte - b'a' + 10,
        _ => return None,
    };
    if u64::from(value) < radix {
        Some(u64::from(value))
    } else {
        None
    }
}

/// Whether so many digits may stand here, the first being this one.
fn may_stand(text: &[u8], most: usize) -> bool
    ensures { IsTrue result ↔ ((1 ≤ length text.now) × (length text.now ≤ most) × (slice_index text.now 0 ≡ 48 → length text.now ≡ 1)) }
{
    match text {
        [] => false,
        [_] => 1 <= most,
        [first, ..] => *first != b'0' && text.len() <= most,
    }
}

/// The number that the whole text writes in this radix with at most so many digits.
fn number(text: &[u8], radix: u64, most: usize) -> Option<u64>
    requires low { 2 ≤ radix }
    requires high { radix ≤ 16 }
    requires fits { radix ^ most ≤ 2 ^ 64 }
    ensures { MatchOption result ((n : ℕ) → IsNumber radix most text.now n → ⊥) (IsNumber radix most text.now) }
{
    if !may_stand(text, most) {
        return None;
    }
    let mut value = 0;
    for byte in text {
        let Some(next) = digit(*byte, radix) else {
            return None;
        };
        value = value * radix + next;
    }
    Some(value)
}

/// The decimal number that the text writes, of at most ten digits.
pub fn decimal(text: &[u8]) -> Option<u64>
    ensures { MatchOption result ((n : ℕ) → IsDecimal text.now n → ⊥) (IsDecimal text.now) }
{
    number(text, 10, 10)
}

/// The hexadecimal number that the text writes, of at most sixteen digits.
pub fn hex(text: &[u8]) -> Option<u64>
    ensures { MatchOption result ((n : ℕ) → IsHex text.now n → ⊥) (IsHex text.now) }
{
    number(text, 16, 16)
}
