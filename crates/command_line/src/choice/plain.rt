// The requests that are chosen without asking `clap`: a command's name, with flags of the command that take no word, each once.
ghost use Rattle.std.specs.Prelude.{◌≡◌, ◌∷◌, map, string_bytes, IfSome};
ghost use Rattle.std.specs.Str.{bytes_eq};
ghost use Rattle.clap.specs.Words.{Text};
ghost use Rattle.command_line.specs.Choice.{IsRequestOf};
ghost use Rattle.command_line.specs.GivenFlags.{flag_of};
ghost use Rattle.command_line.specs.PlainFlags as spec;
ghost use Rattle.command_line.specs.PlainFlags.{are_switches, flag_word, has_word, is_switch};

use super::coloring::Coloring;
use super::commands::{Flag, Request, Takes, command_named};
use super::options::{GivenFlags, Options};
use module_metrics::Labels;
use std::alloc::Global;

/// What a command's name asks for, with such flags after it.
pub fn plain_request(alloc: Global, words: &[String]) -> Option<Request>
    ensures { IfSome result (IsRequestOf (map string_bytes words.now)) }
{
    let (_program, words) = words.split_first()?;
    let (name, flags) = words.split_first()?;
    named(alloc, name, flags)
}

fn named(alloc: Global, name: &str, flags: &[String]) -> Option<Request>
    ensures { (program_name : Text) → IfSome result (IsRequestOf (program_name ∷ name.now ∷ map string_bytes flags.now)) }
{
    let entry = command_named(name)?;
    if !are_switches(entry.flags, flags) {
        return None;
    }
    let given = PlainFlags { words: flags };
    Some(Request {
        command: entry.command,
        options: Options::with(&given, Coloring::Auto, false, Labels::new(alloc)),
    })
}

// Whether each word is one of these flags that takes no word, and none stands twice.
fn are_switches(flags: &[Flag], words: &[String]) -> bool
    ensures { result ≡ are_switches (map flag_of flags.now) (map string_bytes words.now) }
{
    let Some((word, more)) = words.split_first() else {
        return true;
    };
    is_switch(flags, word) && !has_word(more, word) && are_switches(flags, more)
}

fn is_switch(flags: &[Flag], word: &str) -> bool
    ensures { result ≡ is_switch (map flag_of flags.now) word.now }
{
    flags.iter().any(|flag| takes_nothing(flag.takes) && is_flag_word(word, flag.name))
}

fn takes_nothing(takes: Takes) -> bool
    ensures { result ≡ spec.takes_nothing takes }
{
    matches!(takes, Takes::Nothing)
}

fn has_word(words: &[String], word: &str) -> bool
    ensures { result ≡ has_word (map string_bytes words.now) word.now }
{
    words.iter().any(|other| word == other.as_str())
}

// Whether the word is two hyphens and the flag.
fn is_flag_word(word: &str, flag: &str) -> bool
    ensures { result ≡ bytes_eq word.now (flag_word flag.now) }
{
    match word.as_bytes() {
        [first, second, name @ ..] => {
            *first == b'-' && *second == b'-' && name == flag.as_bytes()
        }
        _ => false,
    }
}

// Such flags, as the words give them.
#[derive(Drop)]
struct PlainFlags<'a> {
    words: &'a [String],
}

impl GivenFlags for PlainFlags<'_> {
    ghost gives = { λ given flag. spec.gives (map string_bytes given.words.now) flag };

    fn is_given(&self, flag: &str) -> bool {
        self.words.iter().any(|word| is_flag_word(word, flag))
    }
}
