//! Whether a report is printed in colors.
ghost use Rattle.std.specs.Prelude.{◌≡◌, option_map, MatchResult};
ghost use Rattle.command_line.specs.Coloring.{coloring_by, on_screen, shown_as};
ghost use Rattle.terminal_text.specs.Colors.{colored};

use super::word_fault::WordFault;
use reports::ReportFault;
use std::alloc::Global;
use terminal_text::colored;

/// When a report is printed in colors.
#[derive(Clone, Copy, Debug, PartialEq, Eq)]
pub enum Coloring {
    /// Where the program writes to a terminal that shows them.
    Auto,
    Always,
    Never,
}

impl Coloring {
    /// The same, now that it is known whether the program writes to such a terminal.
    pub fn on_screen(self, shows_colors: bool) -> Coloring
        ensures { result ≡ on_screen shows_colors self }
    {
        match self {
            Coloring::Auto => {
                if shows_colors {
                    Coloring::Always
                } else {
                    Coloring::Never
                }
            }
            Coloring::Always => Coloring::Always,
            Coloring::Never => Coloring::Never,
        }
    }

    /// A report as it is shown: in colors, or as it is; JSON has none.
    pub fn shown(self, alloc: Global, is_json: bool, text: Vec<u8>) -> Result<Vec<u8>, ReportFault>
        ensures { MatchResult result (λ shown. shown.items ≡ shown_as self is_json text.items) (λ f. f ≡ ReportFault.Memory) }
    {
        match self {
            Coloring::Always if !is_json => in_colors(alloc, &text),
            _ => Ok(text),
        }
    }
}

fn in_colors(alloc: Global, text: &[u8]) -> Result<Vec<u8>, ReportFault>
    ensures { MatchResult result (λ shown. shown.items ≡ colored text.now) (λ f. f ≡ ReportFault.Memory) }
{
    Ok(colored(alloc, text)?)
}

/// What the word after the flag asks for.
pub fn coloring_by(word: Option<&str>) -> Result<Coloring, WordFault>
    ensures { result ≡ coloring_by (option_map (λ word. word.now) word.entry) }
{
    match word {
        None => Ok(Coloring::Auto),
        Some("auto") => Ok(Coloring::Auto),
        Some("always") => Ok(Coloring::Always),
        Some("never") => Ok(Coloring::Never),
        Some(_) => Err(WordFault::Color),
    }
}
