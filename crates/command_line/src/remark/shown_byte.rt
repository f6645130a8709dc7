ghost use Rattle.std.specs.Prelude.{◌≡◌, ◌<◌, Some, slice_index};
ghost use Rattle.hex.specs.Hex.{upper_digits};
ghost use Rattle.command_line.specs.Places.{byte_text};

use std::fmt;

/// A byte as two upper-case hexadecimal digits and `h`.
#[derive(Clone, Copy)]
pub struct ShownByte(pub u8);

impl fmt::Display for ShownByte {
    ghost output = { λ shown. Some (byte_text shown.0) };

    #[tactic(auto, unfolding(crate::specs::Places::byte_text))]
    fn fmt<W: fmt::Write>(&self, f: &mut fmt::Formatter<W>) -> fmt::Result {
        let (high, low) = (upper_digit(self.0 / 16), upper_digit(self.0 % 16));
        write!(f, "{high}{low}h")
    }
}

fn upper_digit(value: u8) -> char
    requires { value < 16 }
    ensures digit { result ≡ slice_index upper_digits value }
    ensures ascii { result < 128 }
{
    char::from(b"0123456789ABCDEF"[usize::from(value)])
}
