//! Reads and writes that fail.
ghost use Rattle.command_line.specs.Failures.{FailsWhere};

use std::io;
use std::io::ErrorKind;

/// Whether a read or a write failed, other than by an interruption.
pub fn has_failed<T>(outcome: &io::Result<T>) -> bool
    ensures { FailsWhere result outcome.now }
{
    match outcome {
        Ok(_) => false,
        Err(e) => e.kind() != ErrorKind::Interrupted,
    }
}
