ghost use Rattle.std.specs.Prelude.{ℕ, ◌≡◌, ◌≢◌, ◌+◌, ◌-◌, ◌*◌, ◌^◌, ◌<◌, ◌≤◌, ◌↔◌, IsTrue, MatchOption};
ghost use Rattle.std.specs.Int.{IsInRange};
ghost use Rattle.std.specs.Fmt.{decimal};
ghost use Rattle.text_lines.specs.Decimal.{BeginsDecimal};

/// The number that a word spells in decimal digits without leading zeros, if it is at most `limit`.
pub fn read_decimal(word: &[u8], limit: u64) -> Option<u64>
    ensures { MatchOption result ((n : ℕ) → n ≤ limit → word.now ≢ decimal n) (λ n. (n ≤ limit) × (word.now ≡ decimal n)) }
{
    let Some(number) = read_number(word) else {
        return None;
    };
    if number <= limit { Some(number) } else { None }
}

fn read_number(word: &[u8]) -> Option<u64>
    ensures { MatchOption result ((n : ℕ) → n < 2 ^ 64 → word.now ≢ decimal n) (λ n. (n < 2 ^ 64) × (word.now ≡ decimal n)) }
{
    if !begins_decimal(word) {
        return None;
    }
    let mut number: u64 = 0;
    for byte in word {
        match with_digit(number, *byte) {
            Some(more) => number = more,
            None => return None,
        }
    }
    Some(number)
}

// The number with one more digit after it; none if the byte is no digit, or the number has no room for it.
fn with_digit(number: u64, byte: u8) -> Option<u64>
    ensures { MatchOption result (IsInRange 48 57 byte → 2 ^ 64 ≤ number * 10 + (byte - 48))
        (λ more. (more < 2 ^ 64) × IsInRange 48 57 byte × (more ≡ number * 10 + (byte - 48))) }
{
    if byte < b'0' || b'9' < byte {
        return None;
    }
    number.checked_mul(10)?.checked_add(u64::from(byte - b'0'))
}

// Whether a word begins as a number does that has neither a sign nor leading zeros.
fn begins_decimal(word: &[u8]) -> bool
    ensures { IsTrue result ↔ BeginsDecimal word.now }
{
    match word {
        [b'0'] => true,
        [first, ..] => b'1' <= *first && *first <= b'9',
        [] => false,
    }
}
