ghost use Rattle.std.specs.Prelude.{◌≡◌, None};
ghost use Rattle.command_line.specs.Runs.{answer_of, clue_beside};
ghost use Rattle.command_line.specs.declared.remark.opening.Opening.TheVariants.{Other};

use super::opening::Opening;
use super::weights_lines::odd_line_of_weights;
use crate::command_output::CommandOutput;
use crate::fault::Fault;
use paged_memory::ImageFault;

/// What an input tells of a fault beside its code and its values.
#[derive(Clone, Copy)]
pub struct Clue {
    /// What a text that is no image begins with.
    pub opening: Opening,
    /// The first odd line of the weights, counted from 1.
    pub weights_line: Option<usize>,
}

impl Clue {
    /// None.
    pub fn none() -> Clue
        ensures { result ≡ record { opening = Other; weights_line = None } }
    {
        Clue {
            opening: Opening::Other,
            weights_line: None,
        }
    }

    /// What the input tells of the fault that is answered to it.
    pub fn of(answer: &Result<CommandOutput, Fault>, input: &[u8]) -> Clue
        ensures { result ≡ clue_beside (answer_of answer.now) input.now }
    {
        match answer {
            Err(Fault::Image(ImageFault::BadHeader)) => Clue {
                opening: Opening::of(input),
                weights_line: None,
            },
            Err(Fault::Weights(_)) => Clue {
                opening: Opening::Other,
                weights_line: odd_line_of_weights(input),
            },
            _ => Clue::none(),
        }
    }
}
