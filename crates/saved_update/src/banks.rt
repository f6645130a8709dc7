//! What a module's banks hold.
ghost use Rattle.std.specs.Prelude.{◌≡◌};
ghost use Rattle.saved_update.specs.Banks as spec;

use crate::delivery::number_of;
use firmware_update::{Bank, is_committed, is_invalid, runs, runs_alone};

/// What a bank holds: 1 if it is so, else 0.
#[repr(C)]
#[derive(Clone, Copy)]
pub struct BankState {
    /// The build of its image.
    pub build: u16,
    /// Whether its image runs.
    pub runs: u8,
    /// Whether its image runs after each reset.
    pub committed: u8,
    /// Whether its image can run.
    pub valid: u8,
    /// Whether the version is told of a valid image; if not, it has zeros.
    pub has_version: u8,
    pub major: u8,
    pub minor: u8,
}

/// What the reply about a module's banks says. (CMD 0100h)
#[repr(C)]
#[derive(Clone, Copy)]
pub struct Banks {
    /// The first and the second one.
    pub states: [BankState; 2],
    /// The one that runs alone and is valid: 1 or 2; 0 if none does.
    pub running: u8,
    /// The one that is committed alone: 1 or 2; 0 if none is.
    pub committed: u8,
}

impl Banks {
    /// As the reply says.
    pub fn of(reply: &[u8]) -> Banks
        ensures { result ≡ spec.banks_of reply.now }
    {
        let status = status_of(reply);
        Banks {
            states: [state_of(Bank::A, reply), state_of(Bank::B, reply)],
            running: the_one(runs_alone(Bank::A, status), runs_alone(Bank::B, status)),
            committed: the_one(
                is_committed_alone(Bank::A, status),
                is_committed_alone(Bank::B, status),
            ),
        }
    }
}

// An empty reply counts as two banks that are not valid.
fn status_of(reply: &[u8]) -> u8
    ensures { result ≡ spec.status_of reply.now }
{
    match reply {
        [status, ..] => *status,
        [] => 0x44,
    }
}

fn state_of(bank: Bank, reply: &[u8]) -> BankState
    ensures { result ≡ spec.state_of bank reply.now }
{
    let status = status_of(reply);
    let [major, minor, high, low] = version_of(bank, reply);
    BankState {
        build: u16::from(high) * 256 + u16::from(low),
        runs: number_of(runs(bank, status)),
        committed: number_of(is_committed(bank, status)),
        valid: number_of(!is_invalid(bank, status)),
        has_version: number_of(has_version(bank, reply)),
        major,
        minor,
    }
}

fn version_of(bank: Bank, reply: &[u8]) -> [u8; 4]
    ensures { result ≡ spec.version_of bank reply.now }
{
    if !has_version(bank, reply) {
        return [0; 4];
    }
    let at = offset_of(bank);
    [reply[at], reply[at + 1], reply[at + 2], reply[at + 3]]
}

fn has_version(bank: Bank, reply: &[u8]) -> bool
    ensures { result ≡ spec.has_version bank reply.now }
{
    offset_of(bank) + 3 < reply.len() && !is_invalid(bank, status_of(reply))
}

fn offset_of(bank: Bank) -> usize
    ensures { result ≡ spec.offset_of bank }
{
    match bank {
        Bank::A => 2,
        Bank::B => 38,
    }
}

// The number of the bank of which that holds, if it holds of one.
fn the_one(first: bool, second: bool) -> u8
    ensures { result ≡ spec.the_one first second }
{
    if first {
        1
    } else if second {
        2
    } else {
        0
    }
}

fn is_committed_alone(bank: Bank, status: u8) -> bool
    ensures { result ≡ spec.is_committed_alone bank status }
{
    match bank {
        Bank::A => is_committed(Bank::A, status) && !is_committed(Bank::B, status),
        Bank::B => is_committed(Bank::B, status) && !is_committed(Bank::A, status),
    }
}
