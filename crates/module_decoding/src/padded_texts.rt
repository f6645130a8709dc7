// What is shown of a text's bytes.
ghost use Rattle.std.specs.Prelude.{◌≡◌, ◌<◌};
ghost use Rattle.module_decoding.specs.PaddedTexts.{is_padding, shown_byte, trimmed};

/// The bytes of a text without the padding at their end.
pub fn trimmed(bytes: &[u8]) -> &[u8]
    ensures { result.now ≡ trimmed bytes.now }
{
    let mut len = bytes.len();
    while len > 0 && is_padding(bytes[len - 1]) {
        len -= 1;
    }
    &bytes[..len]
}

fn is_padding(byte: u8) -> bool
    ensures { result ≡ is_padding byte }
{
    byte == b' ' || byte == 0
}

/// The byte itself if it is printable ASCII, else `?`.
pub fn shown_byte(byte: u8) -> u8
    ensures letter { result ≡ shown_byte byte }
    ensures ascii { result < 128 }
{
    if b' ' <= byte && byte <= b'~' {
        byte
    } else {
        b'?'
    }
}
