ghost use Rattle.std.specs.Prelude.{◌≡◌, ◌+◌, ◌<◌, ◌∷◌, [], map, length, IfSome, MatchOption};
ghost use Rattle.std.specs.List.{position};
ghost use Rattle.std.specs.Option.{option_map_or};
ghost use Rattle.std.specs.Iterator.{YieldsFirstBy, item_count};
ghost use Rattle.text_lines.specs.Words.{is_space, words_of};
ghost use Rattle.text_lines.specs.WordsLeft.{words_left};

use arrayvec::ArrayVec;

/// The words of a line, if there are at most `N`.
pub fn split_words<const N: usize>(line: &[u8]) -> Option<ArrayVec<&[u8], N>>
    ensures { MatchOption result (N < length (words_of line.now)) (λ words. map (λ word. word.now) words.items ≡ words_of line.now) }
{
    let mut words = ArrayVec::new();
    for word in Words::of(line) {
        words.try_push(word).ok()?;
    }
    Some(words)
}

// The words of a line from the first to the last; none once the last has been given.
#[derive(Clone, Copy, Debug)]
struct Words<'a> {
    rest: Option<&'a [u8]>,
}

impl<'a> Words<'a> {
    fn of(line: &'a [u8]) -> Self
        ensures { words_left result ≡ words_of line.entry.now }
    {
        Words { rest: Some(line) }
    }
}

impl<'a> Iterator for Words<'a> {
    type Item = &'a [u8];

    ghost next_gives = { YieldsFirstBy (λ word. word.now) words_left };

    ghost remaining = { item_count words_left };

    fn next(&mut self) -> Option<&'a [u8]> {
        let (word, rest) = split_word(self.rest?);
        self.rest = rest;
        Some(word)
    }
}

// The first word, and what follows the space that ends it, if one does.
fn split_word(line: &[u8]) -> (&[u8], Option<&[u8]>)
    ensures { words_of line.now ≡ result.0.now ∷ option_map_or (λ rest. words_of rest.now) result.1 [] }
{
    match find_space(line) {
        Some(end) => (&line[..end], Some(&line[end + 1..])),
        None => (line, None),
    }
}

fn find_space(line: &[u8]) -> Option<usize>
    ensures within { IfSome result (λ end. end < length line.now) }
    ensures place { result ≡ position is_space line.now }
{
    line.iter().position(|byte| *byte == b' ')
}
