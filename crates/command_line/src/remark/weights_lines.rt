// Which line of weights is none of those that weights usually have. TOML has more: this only points at a line, once they are refused.
ghost use Rattle.std.specs.Prelude.{◌≡◌, ◌<◌, ◌∷◌, false, length, List, Some, slice_index_or, ℕ};
ghost use Rattle.std.specs.Char.{is_ascii_digit};
ghost use Rattle.std.specs.List.{list_all};
ghost use Rattle.text_lines.specs.Lines.{lines_of};
ghost use Rattle.command_line.specs.declared.remark.weights_lines.Kind.{Kind};
ghost use Rattle.command_line.specs.declared.remark.weights_lines.Kind.TheVariants.{Header};
ghost use Rattle.command_line.specs.OddLines.{Keeps, has_header, is_number, is_odd, kind_after, kind_in, kind_of, odd_line, odd_line_of_weights, is_stay, weighed};

use super::line_pieces::{cut, is_text, trimmed};
use crate::parts::part;
use applications::WeightTable;
use text_lines::split_line;

/// The number from 1 of the first line of the weights in an input that is none of `stay = NUMBER`, once and before all tables,
/// `[host]`, `[media]` and `[app]`, each once, `KEY = NUMBER` after one of these with a key that it has not had, a comment or an
/// empty line.
pub fn odd_line_of_weights(input: &[u8]) -> Option<usize>
    ensures { result ≡ odd_line_of_weights input.now }
{
    let weights = part(input, 1)?;
    odd_line(weights)
}

/// What a line says.
#[derive(Clone, Copy)]
pub enum Kind {
    /// A comment, or nothing.
    Nothing,
    /// `stay = NUMBER`, before all tables
    Stay,
    /// `[host]`, `[media]` or `[app]`
    Header(WeightTable),
    /// The weight of what this number stands for in the table.
    Weight(u8),
    Other,
}

// What the lines so far say.
#[derive(Drop)]
struct SoFar {
    // The table that they are in.
    table: Option<WeightTable>,
    has_stay: bool,
    has_host: bool,
    has_media: bool,
    has_app: bool,
    // What it lists.
    listed: [bool; 256],
}

// The first odd line of a text.
fn odd_line(text: &[u8]) -> Option<usize>
    ensures { result ≡ odd_line (lines_of text.now) }
{
    let mut so_far = SoFar {
        table: None,
        has_stay: false,
        has_host: false,
        has_media: false,
        has_app: false,
        listed: [false; 256],
    };
    let mut number = 0;
    let mut rest = text;
    while let Some((line, after)) = split_line(rest) {
        number += 1;
        let kind = so_far.kind_of(line);
        if so_far.makes_odd(kind) {
            return Some(number);
        }
        so_far.add(kind);
        rest = after;
    }
    None
}

impl SoFar {
    // What a line says after those.
    fn kind_of(&self, line: &[u8]) -> Kind
        ensures { (before : List Kind) → Keeps before self.now → result ≡ kind_after before line.now }
    {
        kind_of(self.table, line)
    }

    // Whether such a line is odd after those.
    fn makes_odd(&self, kind: Kind) -> bool
        ensures { (before : List Kind) → Keeps before self.now → result ≡ is_odd before kind }
    {
        match kind {
            Kind::Nothing => false,
            Kind::Stay => self.has_stay,
            Kind::Header(table) => self.has_header(table),
            Kind::Weight(number) => self.listed[usize::from(number)],
            Kind::Other => true,
        }
    }

    // Whether this table has begun.
    fn has_header(&self, table: WeightTable) -> bool
        ensures { (before : List Kind) → Keeps before self.now → result ≡ has_header table before }
    {
        match table {
            WeightTable::Host => self.has_host,
            WeightTable::Media => self.has_media,
            WeightTable::App => self.has_app,
        }
    }

    fn add(&mut self, kind: Kind)
        ensures { (before : List Kind) → Keeps before self.old → Keeps (kind ∷ before) self.new }
    {
        match kind {
            Kind::Nothing | Kind::Other => {}
            Kind::Stay => self.has_stay = true,
            Kind::Header(table) => self.begin(table),
            Kind::Weight(number) => self.listed[usize::from(number)] = true,
        }
    }

    fn begin(&mut self, table: WeightTable)
        ensures { (before : List Kind) → Keeps before self.old → Keeps (Header table ∷ before) self.new }
    {
        self.turn_to(table);
        match table {
            WeightTable::Host => self.has_host = true,
            WeightTable::Media => self.has_media = true,
            WeightTable::App => self.has_app = true,
        }
    }

    // The lines are in this table now, which lists nothing yet.
    fn turn_to(&mut self, table: WeightTable)
        ensures table { self.new.table ≡ Some table }
        ensures stay { self.new.has_stay ≡ self.old.has_stay }
        ensures host { self.new.has_host ≡ self.old.has_host }
        ensures media { self.new.has_media ≡ self.old.has_media }
        ensures app { self.new.has_app ≡ self.old.has_app }
        ensures listed { (number : ℕ) → number < 256 → slice_index_or self.new.listed number false ≡ false }
        ensures room { length self.new.listed ≡ 256 }
    {
        self.table = Some(table);
        self.listed = [false; 256];
    }
}

fn kind_of(table: Option<WeightTable>, line: &[u8]) -> Kind
    ensures { result ≡ kind_of table line.now }
{
    if !is_text(line) {
        return Kind::Other;
    }
    let (content, _comment) = cut(line, b'#');
    kind_in(table, trimmed(content))
}

// What a line with this content says.
#[tactic(auto, unfolding(applications::specs::WeightLines::host_line, crate::specs::OddLines::media_line, crate::specs::OddLines::app_line))]
fn kind_in(table: Option<WeightTable>, content: &[u8]) -> Kind
    ensures { result ≡ kind_in table content.now }
{
    if content.is_empty() {
        return Kind::Nothing;
    }
    if content == b"[host]".as_slice() {
        return Kind::Header(WeightTable::Host);
    }
    if content == b"[media]".as_slice() {
        return Kind::Header(WeightTable::Media);
    }
    if content == b"[app]".as_slice() {
        return Kind::Header(WeightTable::App);
    }
    if is_stay(table, content) {
        return Kind::Stay;
    }
    match weighed(table, content) {
        Some(number) => Kind::Weight(number),
        None => Kind::Other,
    }
}

// Whether a content before all tables says what staying weighs.
#[tactic(auto, unfolding(applications::specs::WeightKeys::stay_name))]
fn is_stay(table: Option<WeightTable>, content: &[u8]) -> bool
    ensures { result ≡ is_stay table content.now }
{
    let (key, value) = cut(content, b'=');
    table.is_none() && trimmed(key) == b"stay".as_slice() && is_number(trimmed(value))
}

// The number of which a content `KEY = NUMBER` says the weight, in this table.
fn weighed(table: Option<WeightTable>, content: &[u8]) -> Option<u8>
    ensures { result ≡ weighed table content.now }
{
    let Some(table) = table else {
        return None;
    };
    let (key, value) = cut(content, b'=');
    if !is_number(trimmed(value)) {
        return None;
    }
    table.named_by(trimmed(key))
}

fn is_number(word: &[u8]) -> bool
    ensures { result ≡ is_number word.now }
{
    !word.is_empty() && are_digits(word)
}

fn are_digits(word: &[u8]) -> bool
    ensures { result ≡ list_all is_ascii_digit word.now }
{
    word.iter().all(|byte| byte.is_ascii_digit())
}
