// The pieces of a line of weights.
ghost use Rattle.std.specs.Prelude.{◌≡◌, ◌==◌, ◌<◌, ◌≤◌, length, IfSome};
ghost use Rattle.std.specs.List.{after_first, before_first, position, position_or_len};
ghost use Rattle.std.specs.Str.{is_utf8};
ghost use Rattle.applications.specs.WeightLines.{trimmed};

pub fn is_text(line: &[u8]) -> bool
    ensures { result ≡ is_utf8 line.now }
{
    match std::str::from_utf8(line) {
        Ok(_) => true,
        Err(_) => false,
    }
}

/// Without the blanks at both ends.
pub fn trimmed(bytes: &[u8]) -> &[u8]
    ensures { result.now ≡ trimmed bytes.now }
{
    bytes.trim_ascii()
}

/// What stands before the first such byte, and what after it.
pub fn cut(bytes: &[u8], at: u8) -> (&[u8], &[u8])
    ensures before { result.0.now ≡ before_first (λ byte. byte == at) bytes.now }
    ensures after { result.1.now ≡ after_first (λ byte. byte == at) bytes.now }
{
    let place = place_of(bytes, at);
    (&bytes[..place], &bytes[(place + 1).min(bytes.len())..])
}

// How many bytes stand before it.
fn place_of(bytes: &[u8], at: u8) -> usize
    ensures within { result ≤ length bytes.now }
    ensures place { result ≡ position_or_len (λ byte. byte == at) bytes.now }
{
    find_byte(bytes, at).unwrap_or(bytes.len())
}

fn find_byte(bytes: &[u8], at: u8) -> Option<usize>
    ensures within { IfSome result (λ place. place < length bytes.now) }
    ensures place { result ≡ position (λ byte. byte == at) bytes.now }
{
    bytes.iter().position(|byte| *byte == at)
}
