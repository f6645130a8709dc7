// The text of a script: a line for each directive.
ghost use Rattle.std.specs.Prelude.{◌≡◌, ◌≢◌, ◌<◌, ◌≤◌, ◌↔◌, ◌++◌, ◌∷◌, [], List, ℕ, Bool, IsTrue, IfOk, IfErr, OnOk, MatchOption, map, length};
ghost use Rattle.std.specs.Fmt.{decimal};
ghost use Rattle.text_lines.specs.Lines.{lines_of};
ghost use Rattle.bus_model.specs.declared.script.Directive.{Directive};
ghost use Rattle.bus_model.specs.declared.script.TheConstants.{MAX_DIRECTIVES};
ghost use Rattle.bus_model.specs.ScriptText.{directive_words, directive_line, switch_text, IsDirective, IsDirectiveLine, IsTextOf};
ghost use Rattle.bus_model.specs.ScriptFaults.{IsLineFault, IsFirstFault};

use super::{Directive, MAX_DIRECTIVES, Script};
use crate::fault::ScriptFault;
use arrayvec::ArrayVec;
use text_lines::{read_decimal, split_long_line, split_words};

impl Script {
    /// The script of a text, or the text's first fault.
    pub fn read(text: &[u8]) -> Result<Script, ScriptFault>
        ensures ok { IfOk result (IsTextOf (lines_of text.now)) }
        ensures err { IfErr result (IsFirstFault (lines_of text.now)) }
    {
        let mut directives = ArrayVec::new();
        let mut rest = text;
        while let Some((line, after)) = split_long_line(rest) {
            if let Err(fault) = take_line(&mut directives, line) {
                return Err(fault);
            }
            rest = after;
        }
        Ok(Script {
            directives,
            next: 0,
        })
    }
}

// Adds the directive of the line that follows the lines of these directives.
fn take_line(
    directives: &mut ArrayVec<Directive, MAX_DIRECTIVES>,
    line: &[u8],
) -> Result<(), ScriptFault>
    ensures added { OnOk result ((directive : Directive) × IsDirectiveLine line.now directive
        × (directives.new.items ≡ directives.old.items ++ directive ∷ [])) }
    ensures room { OnOk result (length directives.new.items ≤ MAX_DIRECTIVES) }
    ensures fault { IfErr result (IsLineFault directives.old.items line.now) }
{
    let number = directives.len() + 1;
    let Some(directive) = read_directive(line) else {
        return Err(ScriptFault::BadLine(number));
    };
    if directives.try_push(directive).is_err() {
        return Err(ScriptFault::TooLong);
    }
    Ok(())
}

// The directive that a line spells.
fn read_directive(line: &[u8]) -> Option<Directive>
    ensures { MatchOption result
        ((directive : Directive) → IsDirective directive → line.now ≢ directive_line directive)
        (λ directive. IsDirectiveLine line.now directive) }
{
    let Some(words) = split_words::<2>(line) else {
        return None;
    };
    read_words(&words)
}

#[tactic(auto, unfolding(crate::specs::ScriptText::directive_words))]
fn read_words(words: &[&[u8]]) -> Option<Directive>
    ensures { MatchOption result
        ((directive : Directive) → IsDirective directive → map (λ word. word.now) words.now ≢ directive_words directive)
        (λ directive. IsDirective directive × (map (λ word. word.now) words.now ≡ directive_words directive)) }
{
    match words {
        [name, value] => read_pair(name, value),
        _ => None,
    }
}

#[tactic(auto, unfolding(crate::specs::ScriptText::directive_words))]
fn read_pair(name: &[u8], value: &[u8]) -> Option<Directive>
    ensures { MatchOption result
        ((directive : Directive) → IsDirective directive → name.now ∷ value.now ∷ [] ≢ directive_words directive)
        (λ directive. IsDirective directive × (name.now ∷ value.now ∷ [] ≡ directive_words directive)) }
{
    if name == b"ok".as_slice() {
        match read_count(value) {
            Some(count) => Some(Directive::Pass(count)),
            None => None,
        }
    } else if name == b"nack".as_slice() {
        match read_count(value) {
            Some(count) => Some(Directive::Nack(count)),
            None => None,
        }
    } else if name == b"tick".as_slice() {
        match read_count(value) {
            Some(count) => Some(Directive::Tick(count)),
            None => None,
        }
    } else if name == b"cut".as_slice() {
        match read_decimal(value, 8) {
            Some(kept) => Some(Directive::Cut(kept as u8)),
            None => None,
        }
    } else if name == b"lpmode".as_slice() {
        match read_switch(value) {
            Some(on) => Some(Directive::LowPower(on)),
            None => None,
        }
    } else {
        None
    }
}

// A number from 1 to 65535.
fn read_count(word: &[u8]) -> Option<u16>
    ensures { MatchOption result ((n : ℕ) → 0 < n → n < 65536 → word.now ≢ decimal n)
        (λ n. (0 < n) × (n < 65536) × (word.now ≡ decimal n)) }
{
    match read_decimal(word, 65535) {
        Some(0) => None,
        Some(number) => Some(number as u16),
        None => None,
    }
}

fn read_switch(word: &[u8]) -> Option<bool>
    ensures { MatchOption result ((on : Bool) → word.now ≢ switch_text on) (λ on. word.now ≡ switch_text on) }
{
    if word == b"0".as_slice() {
        Some(false)
    } else if word == b"1".as_slice() {
        Some(true)
    } else {
        None
    }
}
