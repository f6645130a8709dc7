//! The options of all commands, as the words give them.
ghost use Rattle.std.specs.Prelude.{◌≡◌, Bool, map, option_map};
ghost use Rattle.clap.specs.Words.{Text, all_of, first_of, found_of, rows_of};
ghost use Rattle.command_line.specs.ChoiceFault.{Gives};
ghost use Rattle.command_line.specs.GivenFlags.{is_given};
ghost use Rattle.command_line.specs.Options.{all_by, labels_in, options_by, options_in};

use super::coloring::{Coloring, coloring_by};
use super::fault::ChoiceFault;
use super::word_fault::WordFault;
use applications::Conventions;
use clap::ArgMatches;
use module_metrics::Labels;
use std::alloc::Global;

/// What gives flags to a command.
pub trait GivenFlags {
    ghost gives: { Self → Text → Bool };

    /// Whether the flag is given.
    fn is_given(&self, flag: &str) -> bool
        ensures { result ≡ gives self.now flag.now };
}

impl GivenFlags for ArgMatches<'_> {
    ghost gives = { λ given flag. is_given flag (rows_of (found_of given)) };

    fn is_given(&self, flag: &str) -> bool {
        word_after(self, flag).is_some_and(|value| value == "true")
    }
}

/// What the flags of a command ask for; of those that it doesn't have none is given.
#[derive(Drop)]
pub struct Options {
    /// Whether the answer is to be JSON.
    pub json: bool,
    /// Whether the module is to be read over a bus.
    pub bus: bool,
    pub coloring: Coloring,
    /// Whether each flag is to be among the metrics, raised or not.
    pub all_flags: bool,
    /// What is added to all samples.
    pub labels: Labels,
    /// Whether the drawing is to be an SVG.
    pub svg: bool,
    /// Whether the plan is to keep data paths that the input names.
    pub keep: bool,
    /// Whether the plan of the certificate is to be compared with the one that `plan` gives.
    pub first: bool,
    /// Whether the module is to be woken up before.
    pub wake: bool,
    /// Whether the plan is to be activated too.
    pub activate: bool,
    /// How what the module advertises is to be read.
    pub conventions: Conventions,
}

impl Options {
    /// Those that a command's matches give.
    pub fn of(alloc: Global, given: &ArgMatches<'_>) -> Result<Options, ChoiceFault>
        ensures { Gives (options_in (rows_of (found_of given.now))) result }
    {
        let coloring = coloring_by(word_after(given, "color"))?;
        let labels = labels_in(alloc, given)?;
        let all_flags = all_by(word_after(given, "flags"))?;
        Ok(Options::with(given, coloring, all_flags, labels))
    }

    /// Those that are given, with what is asked for by a word.
    pub fn with<G: GivenFlags>(
        given: &G,
        coloring: Coloring,
        all_flags: bool,
        labels: Labels,
    ) -> Options
        ensures { result ≡ options_by (G.gives given.now) coloring labels all_flags }
    {
        Options {
            json: given.is_given("json"),
            bus: given.is_given("bus"),
            coloring,
            all_flags,
            labels,
            svg: given.is_given("svg"),
            keep: given.is_given("keep"),
            first: given.is_given("first"),
            wake: given.is_given("wake"),
            activate: given.is_given("activate"),
            conventions: Conventions {
                paired: given.is_given("paired"),
                counts_by_id: given.is_given("counts-by-id"),
                now: given.is_given("now"),
            },
        }
    }
}

// The labels that the words give.
fn labels_in(alloc: Global, given: &ArgMatches<'_>) -> Result<Labels, ChoiceFault>
    ensures { Gives (labels_in (rows_of (found_of given.now))) result }
{
    let mut labels = Labels::new(alloc);
    let Some(words) = words_after(given, "label") else {
        return Ok(labels);
    };
    for word in words {
        labels.add(alloc, *word)?;
    }
    Ok(labels)
}

// Whether the word asks for each flag of the module.
fn all_by(word: Option<&str>) -> Result<bool, WordFault>
    ensures { result ≡ all_by (option_map (λ word. word.now) word.entry) }
{
    match word {
        Some("all") => Ok(true),
        Some(_) => Err(WordFault::Flags),
        None => Ok(false),
    }
}

// The word that follows a flag.
#[tactic(auto, using(crate::proofs::GivenWords::by_rows))]
fn word_after<'a>(given: &ArgMatches<'a>, flag: &str) -> Option<&'a str>
    ensures { option_map (λ word. word.now) result ≡ first_of flag.now (rows_of (found_of given.now)) }
{
    given.get_str(flag)
}

// The words that follow it each time that it is given.
#[tactic(auto, using(crate::proofs::GivenWords::by_rows))]
fn words_after<'b, 'a>(given: &'b ArgMatches<'a>, flag: &str) -> Option<&'b [&'a str]>
    ensures { option_map (λ words. map (λ word. word.now) words.now) result ≡ all_of flag.now (rows_of (found_of given.now)) }
{
    given.get_strs(flag)
}
