ghost use Rattle.std.specs.Prelude.{◌≡◌, ◌+◌, ◌<◌, ◌≤◌, ◌++◌, ◌∷◌, [], length, take, drop, IfSome, MatchOption};
ghost use Rattle.std.specs.List.{position, position_or_len, before_first, after_first};
ghost use Rattle.std.specs.Iterator.{YieldsFirstBy, item_count};
ghost use Rattle.text_lines.specs.Lines.{is_lf, ended_lines, lines_of};
ghost use Rattle.text_lines.specs.LinesLeft.{lines_left};

use memchr::memchr;

/// The byte that ends a line.
pub const LF: u8 = b'\n';

/// The first line of a text, with the LF that ends it if one does, and what follows it.
pub fn split_ended_line(text: &[u8]) -> Option<(&[u8], &[u8])>
    ensures lines { MatchOption result (text.now ≡ []) (λ x. ended_lines text.now ≡ x.0.now ∷ ended_lines x.1.now) }
    ensures behind { IfSome result (λ x. x.1.now ≡ after_first is_lf text.now) }
    ensures parts { MatchOption result (text.now ≡ []) (λ x. text.now ≡ x.0.now ++ x.1.now) }
    ensures shorter { MatchOption result (text.now ≡ []) (λ x. length x.1.now < length text.now) }
{
    if text.is_empty() {
        return None;
    }
    Some(text.split_at((long_line_len(text) + 1).min(text.len())))
}

/// The first line of a text, without its LF, and what follows it.
pub fn split_line(text: &[u8]) -> Option<(&[u8], &[u8])>
    ensures lines { MatchOption result (text.now ≡ []) (λ x. lines_of text.now ≡ x.0.now ∷ lines_of x.1.now) }
    ensures behind { IfSome result (λ x. x.1.now ≡ after_first is_lf text.now) }
    ensures shorter { MatchOption result (text.now ≡ []) (λ x. length x.1.now < length text.now) }
{
    if text.is_empty() {
        return None;
    }
    Some(parts_at(text, line_len(text)))
}

/// The same, faster for long lines, whose end is searched for by vectors; on a processor without vectors that takes 15 KB
/// of code.
pub fn split_long_line(text: &[u8]) -> Option<(&[u8], &[u8])>
    ensures lines { MatchOption result (text.now ≡ []) (λ x. lines_of text.now ≡ x.0.now ∷ lines_of x.1.now) }
    ensures behind { IfSome result (λ x. x.1.now ≡ after_first is_lf text.now) }
    ensures shorter { MatchOption result (text.now ≡ []) (λ x. length x.1.now < length text.now) }
{
    if text.is_empty() {
        return None;
    }
    Some(parts_at(text, long_line_len(text)))
}

// What stands before the LF at this place, and what follows it.
fn parts_at(text: &[u8], end: usize) -> (&[u8], &[u8])
    requires within { end ≤ length text.now }
    ensures line { result.0.now ≡ take end text.now }
    ensures rest { result.1.now ≡ drop (end + 1) text.now }
{
    (&text[..end], &text[(end + 1).min(text.len())..])
}

// How many bytes stand before the first LF.
fn line_len(text: &[u8]) -> usize
    ensures within { result ≤ length text.now }
    ensures value { result ≡ position_or_len is_lf text.now }
{
    find_lf(text).unwrap_or(text.len())
}

fn find_lf(text: &[u8]) -> Option<usize>
    ensures within { IfSome result (λ place. place < length text.now) }
    ensures place { result ≡ position is_lf text.now }
{
    text.iter().position(|byte| *byte == LF)
}

// The same, faster where that is far.
fn long_line_len(text: &[u8]) -> usize
    ensures within { result ≤ length text.now }
    ensures value { result ≡ position_or_len is_lf text.now }
{
    // An empty line needs no search.
    if let [LF, ..] = text {
        return 0;
    }
    memchr(LF, text).unwrap_or(text.len())
}

/// The lines of a text, from the first to the last, each without its LF.
#[derive(Clone, Copy, Debug)]
pub struct Lines<'a> {
    rest: &'a [u8],
}

impl<'a> Lines<'a> {
    /// All the lines of a text.
    pub fn of(text: &'a [u8]) -> Self
        ensures { lines_left result ≡ lines_of text.entry.now }
    {
        Lines { rest: text }
    }
}

impl<'a> Iterator for Lines<'a> {
    type Item = &'a [u8];

    ghost next_gives = { YieldsFirstBy (λ line. line.now) lines_left };

    ghost remaining = { item_count lines_left };

    fn next(&mut self) -> Option<&'a [u8]> {
        let (line, rest) = split_line(self.rest)?;
        self.rest = rest;
        Some(line)
    }
}
