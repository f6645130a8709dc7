// A text of JSON, which grows token by token. A clause sees its tokens.
ghost use Rattle.std.specs.Prelude.{◌≡◌, ◌<◌, ◌++◌, OnOk};
ghost use Rattle.std.specs.String.{string_bytes};
ghost use Rattle.report_entries.specs.EntryJson.{key_byte, place_key, snake};

use crate::fact::Place;
use crate::shown::{Thousandths, shown_byte};
use json::{Pretty, Token, is_number};
use std::alloc::{AllocError, Global};
use std::fmt::{Display, Write};
use std::marker::Model;

#[derive(Drop)]
pub struct JsonWriter {
    text: Pretty,
    /// What the next token says.
    piece: String,
}

impl Model for JsonWriter {
    ghost use Rattle.std.specs.Prelude.{List};
    ghost use Rattle.json.specs.Token.{Token as SpecToken, tokens_code};

    ghost Value = { List SpecToken };

    ghost coded = { tokens_code };

    ghost view = { λ writer. writer.text };
}

impl JsonWriter {
    ghost use Rattle.std.specs.Prelude.{◌≡◌, ◌++◌, ◌∷◌, [], IfSome, OnOk, decimal};
    ghost use Rattle.json.specs.Layout.{pretty};
    ghost use Rattle.json.specs.Lex.{tokens};
    ghost use Rattle.json.specs.Token.{begin_array, begin_object, boolean, end_array, end_object, key, number, string};
    ghost use Rattle.json.specs.Tree.{json_tokens};
    ghost use Rattle.report_entries.specs.EntryJson.{fact_key, fact_key_in, key_in, snake};
    ghost use Rattle.report_entries.specs.JsonScalars.{scalar_json};
    ghost use Rattle.report_entries.specs.Shown.{thousandths};

    /// No text yet.
    pub(crate) fn new(alloc: Global) -> JsonWriter
        ensures { result ≡ [] }
    {
        JsonWriter {
            text: Pretty::new(alloc),
            piece: String::new(alloc),
        }
    }

    pub fn begin_object(&mut self) -> Result<(), AllocError>
        ensures { OnOk result (self.new ≡ self.old ++ begin_object ∷ []) }
    {
        self.text.token(Token::BeginObject)
    }

    pub fn end_object(&mut self) -> Result<(), AllocError>
        ensures { OnOk result (self.new ≡ self.old ++ end_object ∷ []) }
    {
        self.text.token(Token::EndObject)
    }

    pub fn begin_array(&mut self) -> Result<(), AllocError>
        ensures { OnOk result (self.new ≡ self.old ++ begin_array ∷ []) }
    {
        self.text.token(Token::BeginArray)
    }

    pub fn end_array(&mut self) -> Result<(), AllocError>
        ensures { OnOk result (self.new ≡ self.old ++ end_array ∷ []) }
    {
        self.text.token(Token::EndArray)
    }

    /// A key as it is.
    pub fn key(&mut self, name: &str) -> Result<(), AllocError>
        ensures { OnOk result (self.new ≡ self.old ++ key name.now ∷ []) }
    {
        self.text.token(Token::Key(name))
    }

    /// The key of a name.
    pub(crate) fn key_of(&mut self, name: &str) -> Result<(), AllocError>
        ensures { OnOk result (self.new ≡ self.old ++ key (snake name.now) ∷ []) }
    {
        self.piece.clear();
        push_snake(&mut self.piece, name)?;
        self.text.token(Token::Key(self.piece.as_str()))
    }

    /// The key of a name with something after it.
    #[tactic(auto, unfolding(crate::specs::EntryJson::key_in))]
    pub fn key_in(&mut self, name: &str, behind: &str) -> Result<(), AllocError>
        ensures { OnOk result (self.new ≡ self.old ++ key (key_in name.now behind.now) ∷ []) }
    {
        self.piece.clear();
        push_snake(&mut self.piece, name)?;
        self.piece.push_str("_")?;
        self.piece.push_str(behind)?;
        self.text.token(Token::Key(self.piece.as_str()))
    }

    /// The key of a name with what it is about.
    #[tactic(auto, unfolding(crate::specs::EntryJson::fact_key))]
    pub(crate) fn key_at(&mut self, name: &str, place: Place) -> Result<(), AllocError>
        ensures { OnOk result (self.new ≡ self.old ++ key (fact_key name.now place) ∷ []) }
    {
        self.piece.clear();
        push_snake(&mut self.piece, name)?;
        push_place(&mut self.piece, place)?;
        self.text.token(Token::Key(self.piece.as_str()))
    }

    /// The same with something after it.
    #[tactic(auto, unfolding(crate::specs::EntryJson::fact_key_in))]
    pub(crate) fn key_at_in(
        &mut self,
        name: &str,
        place: Place,
        behind: &str,
    ) -> Result<(), AllocError>
        ensures { OnOk result (self.new ≡ self.old ++ key (fact_key_in name.now place behind.now) ∷ []) }
    {
        self.piece.clear();
        push_snake(&mut self.piece, name)?;
        push_place(&mut self.piece, place)?;
        self.piece.push_str("_")?;
        self.piece.push_str(behind)?;
        self.text.token(Token::Key(self.piece.as_str()))
    }

    /// A string.
    pub fn string(&mut self, value: &str) -> Result<(), AllocError>
        ensures { OnOk result (self.new ≡ self.old ++ string value.now ∷ []) }
    {
        self.text.token(Token::String(value))
    }

    /// A value as a string.
    pub fn shown<V: Display + Drop>(&mut self, value: V) -> Result<(), AllocError>
        ensures { IfSome (V.output value) (λ shown. OnOk result (self.new ≡ self.old ++ string shown ∷ [])) }
    {
        self.piece.clear();
        write!(self.piece, "{value}")?;
        self.text.token(Token::String(self.piece.as_str()))
    }

    /// A value as a number if its text is one, and else as a string.
    #[tactic(auto, unfolding(crate::specs::JsonScalars::scalar_json))]
    pub fn scalar<V: Display + Drop>(&mut self, value: V) -> Result<(), AllocError>
        ensures { IfSome (V.output value) (λ shown.
            OnOk result (self.new ≡ self.old ++ json_tokens (scalar_json shown))) }
    {
        self.piece.clear();
        write!(self.piece, "{value}")?;
        let text = self.piece.as_str();
        if is_number(text) {
            self.text.token(Token::Number(text))
        } else {
            self.text.token(Token::String(text))
        }
    }

    pub fn boolean(&mut self, value: bool) -> Result<(), AllocError>
        ensures { OnOk result (self.new ≡ self.old ++ boolean value ∷ []) }
    {
        self.text.token(Token::Bool(value))
    }

    pub fn number(&mut self, value: u64) -> Result<(), AllocError>
        ensures { OnOk result (self.new ≡ self.old ++ number (decimal value) ∷ []) }
    {
        let mut digits = itoa::Buffer::new();
        self.text.token(Token::Number(digits.format(value)))
    }

    /// Thousandths as a number.
    pub(crate) fn amount(&mut self, millis: i64) -> Result<(), AllocError>
        ensures { OnOk result (self.new ≡ self.old ++ number (thousandths millis) ∷ []) }
    {
        let amount = Thousandths(millis);
        self.piece.clear();
        write!(self.piece, "{amount}")?;
        self.text.token(Token::Number(self.piece.as_str()))
    }

    /// The text.
    pub(crate) fn into_bytes(self) -> Vec<u8>
        ensures value { tokens result.items ≡ self }
        ensures layout { result.items ≡ pretty self }
    {
        let JsonWriter { text, .. } = self;
        text.into_inner()
    }
}

#[tactic(auto, unfolding(crate::specs::EntryJson::snake))]
fn push_snake(text: &mut String, name: &str) -> Result<(), AllocError>
    ensures { OnOk result (string_bytes text.new ≡ string_bytes text.old ++ snake name.now) }
{
    for byte in name.as_bytes() {
        text.push(key_byte(*byte))?;
    }
    Ok(())
}

fn push_place(text: &mut String, place: Place) -> Result<(), AllocError>
    ensures { OnOk result (string_bytes text.new ≡ string_bytes text.old ++ place_key place) }
{
    match place {
        Place::Module => Ok(()),
        Place::Lane(number) => write!(text, "_lane_{number}"),
        Place::App(number) => write!(text, "_app_{number}"),
    }
}

fn key_byte(byte: u8) -> char
    ensures letter { result ≡ key_byte byte }
    ensures ascii { result < 128 }
{
    if byte == b'-' { '_' } else { shown_byte(byte) }
}
