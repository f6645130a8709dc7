//! What commands read: the parts of an input, by what each is the text of.
ghost use Rattle.std.specs.Prelude.{◌≡◌};
ghost use Rattle.command_line.specs.Inputs.{parts_read};

use super::commands::CommandName;

/// What a part of the input is the text of.
#[derive(Clone, Copy, Debug, PartialEq, Eq)]
pub enum Part {
    Image,
    Weights,
    /// Data paths that a plan keeps.
    Kept,
    Certificate,
    /// What the bus of a simulated module does.
    Script,
}

impl CommandName {
    /// The parts that the input has, in their order; kept paths are among them only if the plan is to keep some.
    pub fn parts(self, keep: bool) -> &'static [Part]
        ensures { result.now ≡ parts_read self keep }
    {
        match self {
            CommandName::Report(_)
            | CommandName::Details
            | CommandName::Observables
            | CommandName::Metrics => &[Part::Image],
            CommandName::Check => &[Part::Image, Part::Weights, Part::Certificate],
            CommandName::Plan | CommandName::Draw => {
                if keep {
                    &[Part::Image, Part::Weights, Part::Kept]
                } else {
                    &[Part::Image, Part::Weights]
                }
            }
            CommandName::Provision | CommandName::Trace => {
                if keep {
                    &[Part::Image, Part::Weights, Part::Kept, Part::Script]
                } else {
                    &[Part::Image, Part::Weights, Part::Script]
                }
            }
        }
    }
}
