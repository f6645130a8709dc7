// How values are shown in reports.
ghost use Rattle.std.specs.Prelude.{◌≡◌, ◌<◌, Some, slice_index};
ghost use Rattle.field_tables.specs.LaneSets.{byte_of};
ghost use Rattle.hex.specs.Hex.{upper_digits};
ghost use Rattle.module_decoding.specs.PaddedTexts.{shown_byte};
ghost use Rattle.report_entries.specs.Shown.{byte_code, measure, minus_of, thousandths, three_digits, revision, printable, spaced_bytes, sum_word};

use arrayvec::ArrayVec;
use field_tables::LaneSet;
use module_decoding::trimmed;
use std::fmt;
use text_lines::HexByte;

/// A byte as two upper-case hexadecimal digits and `h`.
#[derive(Clone, Copy)]
pub struct Code(pub u8);

impl fmt::Display for Code {
    ghost output = { λ shown. Some (byte_code shown.0) };

    #[tactic(auto, unfolding(crate::specs::Shown::byte_code))]
    fn fmt<W: fmt::Write>(&self, f: &mut fmt::Formatter<W>) -> fmt::Result {
        let (high, low) = (upper_digit(self.0 / 16), upper_digit(self.0 % 16));
        write!(f, "{high}{low}h")
    }
}

/// The lanes of a set, as the byte that has them.
#[derive(Clone, Copy)]
pub struct LanesCode(pub LaneSet);

impl fmt::Display for LanesCode {
    ghost output = { λ shown. Some (byte_code (byte_of shown.0)) };

    fn fmt<W: fmt::Write>(&self, f: &mut fmt::Formatter<W>) -> fmt::Result {
        let code = Code(self.0.byte());
        write!(f, "{code}")
    }
}

fn upper_digit(value: u8) -> char
    requires { value < 16 }
    ensures digit { result ≡ slice_index upper_digits value }
    ensures ascii { result < 128 }
{
    char::from(b"0123456789ABCDEF"[usize::from(value)])
}

/// A number of thousandths as a decimal fraction: `-0.250` for -250.
#[derive(Clone, Copy)]
pub struct Thousandths(pub i64);

impl fmt::Display for Thousandths {
    ghost output = { λ shown. Some (thousandths shown.0) };

    #[tactic(auto, unfolding(crate::specs::Shown::thousandths))]
    fn fmt<W: fmt::Write>(&self, f: &mut fmt::Formatter<W>) -> fmt::Result {
        let value = self.0;
        let minus = minus(value);
        let size = value.unsigned_abs();
        let whole = size / 1000;
        let rest = ThreeDigits((size % 1000) as u16);
        write!(f, "{minus}{whole}.{rest}")
    }
}

fn minus(value: i64) -> &'static str
    ensures { result.now ≡ minus_of value }
{
    if value < 0 { "-" } else { "" }
}

#[derive(Clone, Copy)]
struct ThreeDigits(u16);

impl fmt::Display for ThreeDigits {
    ghost output = { λ shown. Some (three_digits shown.0) };

    fn fmt<W: fmt::Write>(&self, f: &mut fmt::Formatter<W>) -> fmt::Result {
        let (first, second, third) = (self.0 / 100 % 10, self.0 / 10 % 10, self.0 % 10);
        write!(f, "{first}{second}{third}")
    }
}

/// Thousandths and the unit that they print in.
#[derive(Clone, Copy)]
pub struct Measure(pub i64, pub &'static str);

impl fmt::Display for Measure {
    ghost output = { λ shown. Some (measure shown.0 shown.1.now) };

    #[tactic(auto, unfolding(crate::specs::Shown::measure))]
    fn fmt<W: fmt::Write>(&self, f: &mut fmt::Formatter<W>) -> fmt::Result {
        let (amount, unit) = (Thousandths(self.0), self.1);
        write!(f, "{amount} {unit}")
    }
}

/// A revision, whose major number is in the upper nibble and the minor one in the lower.
#[derive(Clone, Copy)]
pub struct Revision(pub u8);

impl fmt::Display for Revision {
    ghost output = { λ shown. Some (revision shown.0) };

    #[tactic(auto, unfolding(crate::specs::Shown::revision))]
    fn fmt<W: fmt::Write>(&self, f: &mut fmt::Formatter<W>) -> fmt::Result {
        let (major, minor) = (self.0 / 16, self.0 % 16);
        write!(f, "{major}.{minor}")
    }
}

/// The bytes of a text field without the spaces and zeros at their end; a byte that is no printable ASCII shows as `?`.
#[derive(Drop)]
pub struct Text(pub ArrayVec<u8, 16>);

impl fmt::Display for Text {
    ghost output = { λ shown. Some (printable shown.0.items) };

    #[tactic(auto, unfolding(crate::specs::Shown::printable))]
    fn fmt<W: fmt::Write>(&self, f: &mut fmt::Formatter<W>) -> fmt::Result {
        for byte in trimmed(self.0.as_slice()) {
            let letter = shown_byte(*byte);
            write!(f, "{letter}")?;
        }
        Ok(())
    }
}

/// The same of bytes that stay where they are.
#[derive(Clone, Copy)]
pub struct TextIn<'a>(pub &'a [u8]);

impl fmt::Display for TextIn<'_> {
    ghost output = { λ shown. Some (printable shown.0.now) };

    #[tactic(auto, unfolding(crate::specs::Shown::printable))]
    fn fmt<W: fmt::Write>(&self, f: &mut fmt::Formatter<W>) -> fmt::Result {
        for byte in trimmed(self.0) {
            let letter = shown_byte(*byte);
            write!(f, "{letter}")?;
        }
        Ok(())
    }
}

/// What a byte of a text shows as.
pub fn shown_byte(byte: u8) -> char
    ensures letter { result ≡ shown_byte byte }
    ensures ascii { result < 128 }
{
    char::from(module_decoding::shown_byte(byte))
}

/// Whether a sum is right, in a word.
pub fn sum_word(right: bool) -> &'static str
    ensures { result.now ≡ sum_word right }
{
    if right { "right" } else { "wrong" }
}

/// Bytes in hexadecimal, each with a space before it.
#[derive(Clone, Copy)]
pub struct SpacedBytes<'a>(pub &'a [u8]);

impl fmt::Display for SpacedBytes<'_> {
    ghost output = { λ shown. Some (spaced_bytes shown.0.now) };

    #[tactic(auto, unfolding(crate::specs::Shown::spaced_bytes))]
    fn fmt<W: fmt::Write>(&self, f: &mut fmt::Formatter<W>) -> fmt::Result {
        for byte in self.0 {
            let shown = HexByte(*byte);
            write!(f, " {shown}")?;
        }
        Ok(())
    }
}
