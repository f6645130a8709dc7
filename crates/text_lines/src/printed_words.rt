ghost use Rattle.std.specs.Prelude.{ℕ, List, [], ◌∷◌, ◌++◌, ◌≡◌, ◌+◌, ◌≤◌, ◌<◌, length, map};
ghost use Rattle.std.specs.Fmt.{decimal};
ghost use Rattle.hex.specs.Hex.{encode_lower};
ghost use Rattle.text_lines.specs.Words.{spaced};

use crate::hexadecimal::HexByte;
use crate::lines::LF;
use arrayvec::ArrayVec;
use hex::encode_to_slice;
use itoa::Buffer;
use std::marker::Model;

/// The most bytes of a word.
const WORD: usize = 20;

/// The most words.
const WORDS: usize = 8;

/// The most bytes of a line, with its first word and its LF.
const LINE: usize = (WORD + 1) * (WORDS + 1);

/// A word of a line that is printed.
pub type Word = ArrayVec<u8, WORD>;

/// Words of a line that is printed: at most eight, of at most 20 bytes each.
#[derive(Drop)]
pub struct PrintedWords {
    words: ArrayVec<Word, WORDS>,
}

impl Model for PrintedWords {
    ghost Value = { List (List ℕ) };

    ghost view = { λ printed. map (λ word. word.items) printed.words.items };
}

/// What a line spells as words, as a fault by its code and its values.
pub trait ToWords {
    ghost use Rattle.std.specs.Prelude.{ℕ, List, ◌≡◌, ◌≤◌, length};

    /// The words.
    ghost words: { Self → List (List ℕ) };

    /// How many there are at most.
    ghost most: { ℕ };

    fn to_words(&self) -> PrintedWords
        ensures words { result ≡ words self.now }
        ensures most { length result ≤ most };
}

impl PrintedWords {
    /// One word, such as a code.
    pub fn of(word: &str) -> PrintedWords
        requires { length word.now ≤ 20 }
        ensures words { result ≡ word.now ∷ [] }
        ensures most { length result ≤ 1 }
    {
        PrintedWords::of_bytes(word.as_bytes())
    }

    /// Adds what a value spells.
    pub fn and<V: ToWords>(self, value: &V) -> PrintedWords
        requires { length self + V.most ≤ 8 }
        ensures words { result ≡ self ++ V.words value.now }
        ensures most { length result ≤ length self + V.most }
    {
        let mut words = self.words;
        for word in value.to_words().words {
            words.push(word);
        }
        PrintedWords { words }
    }

    /// The line of a first word and these, with the LF that ends it.
    pub fn line_after(&self, first: &str) -> ArrayVec<u8, LINE>
        requires { length first.now ≤ 20 }
        ensures { result.items ≡ spaced (first.now ∷ self.now) ++ 10 ∷ [] }
    {
        let mut line = ArrayVec::try_from(first.as_bytes()).unwrap();
        for word in self.words.as_slice() {
            line.push(b' ');
            line.try_extend_from_slice(word.as_slice()).unwrap();
        }
        line.push(LF);
        line
    }

    /// The words.
    pub fn words(&self) -> &[Word]
        ensures { map (λ word. word.items) result.now ≡ self.now }
    {
        self.words.as_slice()
    }

    fn of_bytes(word: &[u8]) -> PrintedWords
        requires { length word.now ≤ 20 }
        ensures words { result ≡ word.now ∷ [] }
        ensures most { length result ≤ 1 }
    {
        let mut words = ArrayVec::new();
        words.push(ArrayVec::try_from(word).unwrap());
        PrintedWords { words }
    }
}

/// A number, in decimal.
impl ToWords for usize {
    ghost words = { λ number. decimal number ∷ [] };

    ghost most = { 1 };

    fn to_words(&self) -> PrintedWords {
        PrintedWords::of_bytes(Buffer::new().format(*self).as_bytes())
    }
}

/// A number, in decimal.
impl ToWords for u8 {
    ghost words = { λ number. decimal number ∷ [] };

    ghost most = { 1 };

    fn to_words(&self) -> PrintedWords {
        PrintedWords::of_bytes(Buffer::new().format(*self).as_bytes())
    }
}

/// A byte, as two lower-case hexadecimal digits.
impl ToWords for HexByte {
    ghost words = { λ shown. encode_lower (shown.0 ∷ []) ∷ [] };

    ghost most = { 1 };

    fn to_words(&self) -> PrintedWords {
        let mut digits = [0; 2];
        encode_to_slice([self.0], &mut digits).unwrap();
        PrintedWords::of_bytes(&digits)
    }
}
