//! Why a word that follows a flag is wrong, though `clap` takes it.
ghost use Rattle.std.specs.Prelude.{◌≡◌};
ghost use Rattle.command_line.specs.WordFaults.{label_sentence, word_sentence};

use module_metrics::LabelFault;
use std::fmt;

/// Why a word that follows a flag is wrong.
#[derive(Clone, Copy, Debug, PartialEq, Eq)]
pub enum WordFault {
    /// It is no label that can be added.
    Label(LabelFault),
    /// It doesn't say which flags of the module are asked for.
    Flags,
    /// It doesn't say when a report is to be colored.
    Color,
}

impl WordFault {
    /// What is wrong.
    fn sentence(self) -> &'static str
        ensures { result.now ≡ word_sentence self }
    {
        match self {
            WordFault::Label(fault) => label_sentence(fault),
            WordFault::Flags => "the word after '--flags' has to be 'all'",
            WordFault::Color => "the word after '--color' has to be 'auto', 'always' or 'never'",
        }
    }
}

fn label_sentence(fault: LabelFault) -> &'static str
    ensures { result.now ≡ label_sentence fault }
{
    match fault {
        LabelFault::Memory => "out of memory",
        LabelFault::NoValue => "the word after '--label' has to be KEY=VALUE",
        LabelFault::BadKey =>
            "the key of a '--label' has to be a letter or '_', and then letters, digits and '_'; '__' may not begin it",
        LabelFault::Taken => "samples have the key of this '--label' by themselves",
        LabelFault::Twice => "two '--label' have the same key",
    }
}

/// As `clap` says what is wrong.
impl fmt::Display for WordFault {
    ghost use Rattle.std.specs.Prelude.{Some};
    ghost use Rattle.command_line.specs.WordFaults.{word_text};

    ghost output = { λ fault. Some (word_text fault) };

    fn fmt<W: fmt::Write>(&self, f: &mut fmt::Formatter<W>) -> fmt::Result {
        let sentence = self.sentence();
        write!(
            f,
            "error: {sentence}\n\nFor more information, try '--help'.\n"
        )
    }
}
