//! How the program ended.
ghost use Rattle.std.specs.Prelude.{◌≡◌};
ghost use Rattle.std.specs.Process.{exit_status};
ghost use Rattle.command_line.specs.Status.{code_of};

use std::process::ExitCode;

/// How a run of the program ended.
#[derive(Clone, Copy, Debug, PartialEq, Eq)]
pub enum Status {
    /// The command did what was asked.
    Done,
    /// The input was refused.
    Refused,
    /// The command line was refused.
    CommandLine,
    /// The module was not provisioned.
    NotProvisioned,
    /// The certificate is bad.
    BadCertificate,
    /// An allocation was refused.
    Memory,
    /// A read or a write failed.
    ReadOrWrite,
}

impl Status {
    /// The number that the process ends with.
    pub fn code(self) -> u8
        ensures { result ≡ code_of self }
    {
        match self {
            Status::Done => 0,
            Status::Refused => 1,
            Status::CommandLine => 2,
            Status::NotProvisioned => 3,
            Status::BadCertificate => 4,
            Status::Memory => 5,
            Status::ReadOrWrite => 6,
        }
    }
}

impl From<Status> for ExitCode {
    ghost from_gives = { λ status exit. exit_status exit ≡ code_of status };

    fn from(status: Status) -> ExitCode {
        ExitCode::from(status.code())
    }
}
