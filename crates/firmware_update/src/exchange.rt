use crate::command::Command;
use command_block::Outcome;

/// A command, and what came of it.
#[derive(Debug, PartialEq, Eq, Drop)]
pub struct Exchange {
    pub command: Command,
    pub outcome: Outcome,
}
