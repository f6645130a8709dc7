ghost use Rattle.std.specs.Prelude.{◌≡◌};
ghost use Rattle.command_line.specs.Remarks.{has_mark, has_returns, is_binary, is_text, opening_key, opening_of};

/// How a text begins that is no image's.
#[derive(Clone, Copy, Debug, PartialEq, Eq)]
pub enum Opening {
    /// There is no byte.
    Empty,
    /// With a byte order mark.
    Mark,
    /// With an image's first line, but for a CR at its end.
    Returns,
    /// With bytes that are no text.
    Binary,
    /// Otherwise.
    Other,
}

/// So many bytes are looked at.
const LOOK: usize = 128;

impl Opening {
    /// How this text begins.
    pub fn of(text: &[u8]) -> Opening
        ensures { result ≡ opening_of text.now }
    {
        if text.is_empty() {
            Opening::Empty
        } else if has_mark(text) {
            Opening::Mark
        } else if has_returns(text) {
            Opening::Returns
        } else if is_binary(text) {
            Opening::Binary
        } else {
            Opening::Other
        }
    }

    /// The code of the sentence that says so.
    pub fn key(self) -> &'static str
        ensures { result.now ≡ opening_key self }
    {
        match self {
            Opening::Empty => "IM1 empty",
            Opening::Mark => "IM1 mark",
            Opening::Returns => "IM1 returns",
            Opening::Binary => "IM1 binary",
            Opening::Other => "IM1",
        }
    }
}

// Of UTF-8, or of UTF-16 in one order or the other.
fn has_mark(text: &[u8]) -> bool
    ensures { result ≡ has_mark text.now }
{
    text.starts_with(&[0xEF, 0xBB, 0xBF])
        || text.starts_with(&[0xFF, 0xFE])
        || text.starts_with(&[0xFE, 0xFF])
}

// An image's first line in either version, and a CR.
fn has_returns(text: &[u8]) -> bool
    ensures { result ≡ has_returns text.now }
{
    text.starts_with(b"module-image 1\r") || text.starts_with(b"module-image 2\r")
}

// Whether one of the first bytes is no character of a text in ASCII, nor white space.
fn is_binary(text: &[u8]) -> bool
    ensures { result ≡ is_binary text.now }
{
    text.iter().take(LOOK).any(|byte| !is_text(*byte))
}

fn is_text(byte: u8) -> bool
    ensures { result ≡ is_text byte }
{
    (byte >= 32 && byte <= 126) || byte == b'\t' || byte == b'\n' || byte == b'\r'
}
