//! An update of a module's firmware, as the commands that it sends and what came of each.
ghost use Rattle.std.specs.Prelude.{◌≡◌, ◌<◌, [], ◌∷◌, ℕ};
ghost use Rattle.firmware_update.specs.declared.command.Command.{Command};
ghost use Rattle.firmware_update.specs.declared.update.UpdateNext.TheVariants.{Send, Done};
ghost use Rattle.firmware_update.specs.Exchanges.{History};
ghost use Rattle.firmware_update.specs.Safety.{IsSafe, MaySend};
ghost use Rattle.firmware_update.specs.KnownStates.{Shows, known_at, known_begun, known_open};
ghost use Rattle.firmware_update.specs.Payloads.{HasRoom};
ghost use Rattle.firmware_update.specs.Progress.{IsAt, IsFinished, aborted, begun_update, command_at, exchange_of, is_open, left, most_left, next, next_closing, sending, settled, taken};

use crate::bank::Bank;
use crate::command::{Command, block_length};
use crate::judgement::{Judgement, judged};
use crate::known::Known;
use command_block::Outcome;

/// How often a question or a block is sent again that had no answer, or not yet the one that is wanted.
pub const MAX_TRIES: u8 = 32;

/// How far an update has come.
#[derive(Clone, Copy, Debug, PartialEq, Eq)]
pub enum Stage {
    /// It is to be asked how the module manages firmware.
    Asking,
    /// It is to be asked which image runs.
    Looking { header: u8 },
    /// The download is to begin.
    Starting { header: u8, old: Bank },
    /// Blocks are to be sent from this address on, and at the end it is to be said that they are complete.
    Sending { header: u8, old: Bank, address: u32 },
    /// The new image is to run.
    Running { old: Bank },
    /// It is to be asked whether it runs.
    Watching { old: Bank },
    /// It is to be committed.
    Committing { old: Bank },
    /// It is to be asked whether it is committed.
    Verifying { old: Bank },
    /// It is.
    Finished,
}

/// Why an update ends before its end.
#[derive(Clone, Copy, Debug, PartialEq, Eq)]
pub enum Cause {
    /// The module refuses a command, with this status.
    Refused(u8),
    /// A command could not be sent.
    Unsent,
    /// A command was sent, perhaps, that is not sent twice, and what came of it is not known.
    Unknown,
    /// The module takes no blocks, or more bytes at the start than the file has.
    Unsupported,
    /// No bank runs that is committed and valid, alone: nothing may be overwritten.
    NotStanding,
    /// It was asked, or a block was sent, as often as it may be.
    GaveUp,
    /// The module refuses to begin, with this status, as it does while a download that was begun earlier is open.
    LeftOpen(u8),
}

/// What became of a download that a fault left open.
#[derive(Clone, Copy, Debug, PartialEq, Eq)]
pub enum Closing {
    /// Nothing yet.
    Due,
    /// It was aborted.
    Closed,
    /// It can't be aborted, or that had no answer as often as it was sent.
    Left,
}

/// An update without a bus: it says which command comes next, and is told what came of it.
#[derive(Clone, Copy, Debug, PartialEq, Eq)]
pub struct Update {
    /// How many bytes the file has.
    pub size: u32,
    pub stage: Stage,
    /// How often the command may be sent again.
    pub tries: u8,
    pub fault: Option<Cause>,
    pub closing: Closing,
}

/// What an update wants.
#[derive(Clone, Copy, Debug, PartialEq, Eq)]
pub enum UpdateNext {
    /// This command is to be sent, and what came of it to be told.
    Send(Command),
    /// Nothing more: the new image runs and is committed, or why not.
    Done(Result<(), Cause>),
}

impl Update {
    /// Of a file of this size.
    pub fn of(size: u32) -> Update
        ensures value { result ≡ begun_update size }
        ensures begins { IsAt size [] result }
        ensures bound { left result ≡ most_left size }
    {
        Update {
            size,
            stage: Stage::Asking,
            tries: MAX_TRIES,
            fault: None,
            closing: Closing::Due,
        }
    }

    /// The command to be sent now, or the end.
    pub fn next(&self) -> UpdateNext
        ensures value { result ≡ next self.now }
        ensures safe { (history : History) → IsAt self.now.size history self.now → IsSafe self.now.size history }
        ensures may { (history : History) (command : Command) → IsAt self.now.size history self.now → result ≡ Send command →
            MaySend self.now.size command history }
        ensures room { (history : History) (command : Command) → IsAt self.now.size history self.now → result ≡ Send command →
            HasRoom command }
        ensures finished { (history : History) → IsAt self.now.size history self.now → result ≡ Done (Ok tt) →
            IsFinished self.now.size history }
    {
        self.wanted()
    }

    /// What is known of the module now.
    pub fn known(&self) -> Known
        ensures value { result ≡ known_at self.now }
        ensures shown { (history : History) → IsAt self.now.size history self.now → Shows result history }
    {
        self.state()
    }

    fn state(&self) -> Known
        ensures { result ≡ known_at self.now }
    {
        match self.closing {
            Closing::Closed => Known::Aborted,
            Closing::Due | Closing::Left => self.state_open(),
        }
    }

    fn state_open(&self) -> Known
        ensures { result ≡ known_open self.now.stage self.now.fault }
    {
        let unknown = matches!(self.fault, Some(Cause::Unknown));
        match self.stage {
            Stage::Asking | Stage::Looking { .. } => Known::Untouched,
            Stage::Starting { .. } => known_begun(self.fault),
            Stage::Sending { .. } if unknown => Known::MayBeComplete,
            Stage::Sending { .. } => Known::Begun,
            Stage::Running { .. } => Known::Complete,
            Stage::Watching { .. } => Known::MayRun,
            Stage::Committing { .. } => Known::Runs,
            Stage::Verifying { .. } => Known::MayBeCommitted,
            Stage::Finished => Known::Committed,
        }
    }

    fn wanted(&self) -> UpdateNext
        ensures { result ≡ next self.now }
    {
        match self.fault {
            Some(cause) => next_closing(self.stage, cause, self.closing),
            None => match self.command() {
                Some(command) => UpdateNext::Send(command),
                None => UpdateNext::Done(Ok(())),
            },
        }
    }

    fn command(&self) -> Option<Command>
        ensures { result ≡ command_at self.now.size self.now.stage }
    {
        match self.stage {
            Stage::Asking => Some(Command::Features),
            Stage::Looking { .. } => Some(Command::Info),
            Stage::Starting { header, .. } => Some(Command::Start { header }),
            Stage::Sending {
                header,
                address,
                ..
            } => Some(sending(self.size, header, address)),
            Stage::Running { .. } => Some(Command::Run),
            Stage::Watching { .. } => Some(Command::Info),
            Stage::Committing { .. } => Some(Command::Commit),
            Stage::Verifying { .. } => Some(Command::Info),
            Stage::Finished => None,
        }
    }

    /// Takes what came of the command that was to be sent.
    pub fn take(&mut self, outcome: &Outcome)
        ensures value { self.new ≡ taken self.old outcome.now }
        ensures told { (history : History) (command : Command) → IsAt self.old.size history self.old → next self.old ≡ Send command →
            IsAt self.old.size (exchange_of command outcome.now ∷ history) self.new }
        ensures fewer { (command : Command) → next self.old ≡ Send command → left self.new < left self.old }
        ensures size { self.new.size ≡ self.old.size }
    {
        self.change(outcome);
    }

    fn change(&mut self, outcome: &Outcome)
        ensures { self.new ≡ taken self.old outcome.now }
    {
        match self.fault {
            Some(_cause) => self.close(outcome),
            None => self.settle(judged(self.size, self.stage, outcome)),
        }
    }

    fn settle(&mut self, judgement: Judgement)
        ensures { self.new ≡ settled self.old judgement }
    {
        match judgement {
            Judgement::On(stage) => {
                self.stage = stage;
                self.tries = MAX_TRIES;
            }
            Judgement::Again if self.tries > 0 => self.tries -= 1,
            Judgement::Again => {
                self.fault = Some(Cause::GaveUp);
                self.tries = MAX_TRIES;
            }
            Judgement::Fails(cause) => {
                self.fault = Some(cause);
                self.tries = MAX_TRIES;
            }
        }
    }

    // What came of an Abort.
    fn close(&mut self, outcome: &Outcome)
        ensures { self.new ≡ aborted self.old outcome.now }
    {
        match outcome {
            Outcome::Succeeded(_reply) => self.closing = Closing::Closed,
            Outcome::Failed(_code) => self.closing = Closing::Left,
            Outcome::Unsent | Outcome::Unknown => {
                if self.tries > 0 {
                    self.tries -= 1;
                } else {
                    self.closing = Closing::Left;
                }
            }
        }
    }
}

// What is known after a Start: a download may be open, this one or an earlier one.
fn known_begun(fault: Option<Cause>) -> Known
    ensures { result ≡ known_begun fault }
{
    match fault {
        Some(Cause::Unknown | Cause::LeftOpen(_)) => Known::Begun,
        _ => Known::Untouched,
    }
}

// An Abort, where a download may be open and none had an answer yet, or the end.
fn next_closing(stage: Stage, cause: Cause, closing: Closing) -> UpdateNext
    ensures { result ≡ next_closing (is_open stage cause) closing cause }
{
    match closing {
        Closing::Due if is_open(stage, cause) => UpdateNext::Send(Command::Abort),
        _ => UpdateNext::Done(Err(cause)),
    }
}

fn is_open(stage: Stage, cause: Cause) -> bool
    ensures { result ≡ is_open stage cause }
{
    match stage {
        Stage::Starting { .. } => matches!(cause, Cause::Unknown | Cause::LeftOpen(_)),
        Stage::Sending { .. } => true,
        _ => false,
    }
}

// The block at an address, or that there is none left.
fn sending(size: u32, header: u8, address: u32) -> Command
    ensures { result ≡ sending size header address }
{
    if block_length(size, header, address) == 0 {
        Command::Complete
    } else {
        Command::Block { header, address }
    }
}
