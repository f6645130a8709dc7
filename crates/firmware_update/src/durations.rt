ghost use Rattle.std.specs.Prelude.{◌≡◌, ◌≤◌, ◌<◌, ◌+◌, ◌*◌, length};
ghost use Rattle.firmware_update.specs.Durations as spec;

use crate::command::Command;
use command_block::Outcome;

/// How many milliseconds a module may need for what it is told, as it says; 0 where it says nothing.
#[derive(Clone, Copy, Debug, PartialEq, Eq)]
pub struct Durations {
    pub start: u32,
    pub abort: u32,
    pub block: u32,
    pub complete: u32,
}

impl Durations {
    /// Nothing is said yet.
    pub fn new() -> Durations
        ensures { result ≡ spec.none }
    {
        Durations {
            start: 0,
            abort: 0,
            block: 0,
            complete: 0,
        }
    }

    /// As the reply about how firmware is managed says. (CMD 0041h)
    pub fn of(reply: &[u8]) -> Durations
        ensures { result ≡ spec.durations_of reply.now }
    {
        if reply.len() < 18 {
            return Durations::new();
        }
        let unit = unit_of(reply[1]);
        Durations {
            start: duration_at(unit, reply, 8),
            abort: duration_at(unit, reply, 10),
            block: duration_at(unit, reply, 12),
            complete: duration_at(unit, reply, 14),
        }
    }

    /// For this command.
    pub fn duration(self, command: Command) -> u32
        ensures { result ≡ spec.duration_for command self }
    {
        match command {
            Command::Start { .. } => self.start,
            Command::Block { .. } => self.block,
            Command::Complete => self.complete,
            Command::Abort => self.abort,
            Command::Features | Command::Info | Command::Run | Command::Commit => 0,
        }
    }

    /// After a command, and what came of it.
    pub fn learned(self, command: Command, outcome: &Outcome) -> Durations
        ensures { result ≡ spec.learned command outcome.now self }
    {
        match (command, outcome) {
            (Command::Features, Outcome::Succeeded(reply)) => Durations::of(reply.as_slice()),
            _ => self,
        }
    }
}

// Steps of ten milliseconds, or of one.
fn unit_of(byte: u8) -> u32
    ensures value { result ≡ spec.unit_of byte }
    ensures few { result ≤ 10 }
{
    if byte / 8 % 2 == 1 { 10 } else { 1 }
}

// Two bytes, the higher first.
fn duration_at(unit: u32, reply: &[u8], at: usize) -> u32
    requires few { unit ≤ 10 }
    requires within { at + 1 < length reply.now }
    ensures { result ≡ spec.duration_at unit reply.now at }
{
    (u32::from(reply[at]) * 256 + u32::from(reply[at + 1])) * unit
}
