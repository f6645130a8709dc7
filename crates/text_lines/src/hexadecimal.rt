ghost use Rattle.std.specs.Prelude.{ℕ, List, ◌≡◌, ◌≢◌, ◌↔◌, length, [], ◌∷◌, ◌<◌, slice_index, IsTrue, MatchOption, Some};
ghost use Rattle.hex.specs.Hex.{IsBytes, encode_lower, lower_digits};

use std::fmt;

/// The `N` bytes that a word of `2 * N` lower-case hexadecimal digits spells, the high half of each byte first.
pub fn read_hexadecimal<const N: usize>(word: &[u8]) -> Option<[u8; N]>
    ensures { MatchOption result ((bytes : List ℕ) → length bytes ≡ N → IsBytes bytes → word.now ≢ encode_lower bytes) (λ bytes. word.now ≡ encode_lower bytes) }
{
    let mut bytes = [0; N];
    let mut rest = word;
    for byte in bytes.iter_mut() {
        let [high, low, after @ ..] = rest else {
            return None;
        };
        let Some(spelled) = byte_of(*high, *low) else {
            return None;
        };
        *byte = spelled;
        rest = after;
    }
    if rest.is_empty() { Some(bytes) } else { None }
}

/// The byte that a word of two lower-case hexadecimal digits spells.
pub fn read_hex_byte(word: &[u8]) -> Option<u8>
    ensures { MatchOption result ((byte : ℕ) → byte < 256 → word.now ≢ encode_lower (byte ∷ [])) (λ byte. word.now ≡ encode_lower (byte ∷ [])) }
{
    let [high, low] = word else {
        return None;
    };
    byte_of(*high, *low)
}

// The byte that two lower-case hexadecimal digits spell.
fn byte_of(high: u8, low: u8) -> Option<u8>
    ensures { MatchOption result ((byte : ℕ) → byte < 256 → high ∷ low ∷ [] ≢ encode_lower (byte ∷ []))
        (λ byte. (byte < 256) × (high ∷ low ∷ [] ≡ encode_lower (byte ∷ []))) }
{
    let Some(high) = value_of(high) else {
        return None;
    };
    let Some(low) = value_of(low) else {
        return None;
    };
    Some(16 * high + low)
}

// The value of a lower-case hexadecimal digit.
fn value_of(digit: u8) -> Option<u8>
    ensures { MatchOption result ((value : ℕ) → value < 16 → slice_index lower_digits value ≢ digit) (λ value. (value < 16) × (slice_index lower_digits value ≡ digit)) }
{
    match digit {
        b'0'..=b'9' => Some(digit - b'0'),
        b'a'..=b'f' => Some(digit - b'a' + 10),
        _ => None,
    }
}

/// A byte that prints as two lower-case hexadecimal digits.
#[derive(Clone, Copy, Debug)]
pub struct HexByte(pub u8);

impl fmt::Display for HexByte {
    ghost output = { λ shown. Some (encode_lower (shown.0 ∷ [])) };

    #[tactic(auto, unfolding(hex::specs::Hex::encode_with))]
    fn fmt<W: fmt::Write>(&self, f: &mut fmt::Formatter<W>) -> fmt::Result {
        let (high, low) = (digit(self.0 / 16), digit(self.0 % 16));
        write!(f, "{}{}", char::from(high), char::from(low))
    }
}

impl HexByte {
    /// The two digits.
    #[tactic(auto, unfolding(hex::specs::Hex::encode_with))]
    pub fn digits(self) -> [u8; 2]
        ensures { result ≡ encode_lower (self.0 ∷ []) }
    {
        [digit(self.0 / 16), digit(self.0 % 16)]
    }
}

/// Bytes that print as lower-case hexadecimal digits, the high half of each byte first.
#[derive(Clone, Copy, Debug)]
pub struct Hexadecimal<'a>(pub &'a [u8]);

impl fmt::Display for Hexadecimal<'_> {
    ghost output = { λ shown. Some (encode_lower shown.0.now) };

    fn fmt<W: fmt::Write>(&self, f: &mut fmt::Formatter<W>) -> fmt::Result {
        for byte in self.0 {
            let shown = HexByte(*byte);
            write!(f, "{shown}")?;
        }
        Ok(())
    }
}

fn digit(value: u8) -> u8
    requires { value < 16 }
    ensures glyph { result ≡ slice_index lower_digits value }
    ensures ascii { result < 128 }
{
    b"0123456789abcdef"[usize::from(value)]
}
