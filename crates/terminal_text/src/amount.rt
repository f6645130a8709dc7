// Amounts as reports print them: digits, perhaps a point among them, and perhaps a minus before them.
ghost use Rattle.std.specs.Prelude.{◌≡◌, ◌<◌, length, IfSome};
ghost use Rattle.std.specs.List.{list_all, position};
ghost use Rattle.terminal_text.specs.Amounts.{is_above, is_amount, is_amount_byte, is_beyond, is_greater, is_larger, is_negative, is_point, size_of, whole_len};

use std::cmp::Ordering;

/// Whether an amount is above a high limit or below a low one; limits count if the high one is the higher.
#[tactic(auto, unfolding(crate::specs::Amounts::is_beyond))]
pub fn is_beyond(amount: &[u8], high: &[u8], low: &[u8]) -> bool
    ensures { result ≡ is_beyond amount.now high.now low.now }
{
    is_above(high, low) && (is_above(amount, high) || is_above(low, amount))
}

// Whether both are amounts, and the first is above the second.
fn is_above(amount: &[u8], other: &[u8]) -> bool
    ensures { result ≡ is_above amount.now other.now }
{
    is_amount(amount) && is_amount(other) && is_greater(amount, other)
}

fn is_greater(amount: &[u8], other: &[u8]) -> bool
    ensures { result ≡ is_greater amount.now other.now }
{
    if is_negative(amount) {
        is_negative(other) && is_larger(size_of(other), size_of(amount))
    } else {
        is_negative(other) || is_larger(size_of(amount), size_of(other))
    }
}

// Whether the first is larger, of two amounts without signs.
fn is_larger(size: &[u8], other: &[u8]) -> bool
    ensures { result ≡ is_larger size.now other.now }
{
    let (whole, other_whole) = (whole_len(size), whole_len(other));
    if whole == other_whole {
        size.cmp(&other) == Ordering::Greater
    } else {
        other_whole < whole
    }
}

fn is_amount(word: &[u8]) -> bool
    ensures { result ≡ is_amount word.now }
{
    let size = size_of(word);
    !size.is_empty() && has_amount_bytes(size)
}

fn has_amount_bytes(size: &[u8]) -> bool
    ensures { result ≡ list_all is_amount_byte size.now }
{
    size.iter().all(|byte| is_amount_byte(*byte))
}

// A digit or a point.
fn is_amount_byte(byte: u8) -> bool
    ensures { result ≡ is_amount_byte byte }
{
    b'0' <= byte && byte <= b'9' || byte == b'.'
}

fn is_negative(amount: &[u8]) -> bool
    ensures { result ≡ is_negative amount.now }
{
    amount.first() == Some(&b'-')
}

// An amount without its sign.
fn size_of(amount: &[u8]) -> &[u8]
    ensures { result.now ≡ size_of amount.now }
{
    if is_negative(amount) {
        &amount[1..]
    } else {
        amount
    }
}

// How many digits come before the point.
fn whole_len(size: &[u8]) -> usize
    ensures { result ≡ whole_len size.now }
{
    find_point(size).unwrap_or(size.len())
}

fn find_point(size: &[u8]) -> Option<usize>
    ensures within { IfSome result (λ place. place < length size.now) }
    ensures place { result ≡ position is_point size.now }
{
    size.iter().position(|byte| *byte == b'.')
}
