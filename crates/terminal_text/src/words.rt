// The words of a line of a report.
ghost use Rattle.std.specs.Prelude.{◌≡◌, map};
ghost use Rattle.terminal_text.specs.Alerts.{line_words, word_at};

use arrayvec::ArrayVec;
use text_lines::split_words;

/// The most words that a line has in which something can be beyond a limit.
pub const MOST_WORDS: usize = 16;

/// The words of a line, none if they are more.
pub fn words_in(line: &[u8]) -> ArrayVec<&[u8], MOST_WORDS>
    ensures { map (λ word. word.now) result.items ≡ line_words line.now }
{
    match split_words(line) {
        Some(words) => words,
        None => ArrayVec::new(),
    }
}

/// The word at this place, from 0 on; an empty one if there is none.
pub fn word_at<'a>(words: &[&'a [u8]], place: usize) -> &'a [u8]
    ensures { result.now ≡ word_at place (map (λ word. word.now) words.now) }
{
    match words.get(place) {
        Some(word) => *word,
        None => &[],
    }
}
