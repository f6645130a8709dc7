//! What replies say.
ghost use Rattle.std.specs.Prelude.{◌≡◌, ◌<◌, length};
ghost use Rattle.firmware_update.specs.Replies.{has_bit, is_committed, is_invalid, new_is_committed, new_runs, other_bank, runs, runs_alone, standing_bank, stands, start_size, takes_blocks};

use crate::bank::Bank;

/// How many bytes of the file a Start takes, if a file of this size can be sent in blocks.
pub fn start_size(size: u32, reply: &[u8]) -> Option<u8>
    ensures { result ≡ start_size size reply.now }
{
    if reply.len() < 18 {
        return None;
    }
    let header = reply[2];
    if takes_blocks(reply[5]) && header <= 112 && u32::from(header) < size {
        Some(header)
    } else {
        None
    }
}

fn takes_blocks(mechanism: u8) -> bool
    ensures { result ≡ takes_blocks mechanism }
{
    mechanism == 1 || mechanism == 17
}

// Whether the bit of this weight is set.
fn has_bit(weight: u8, byte: u8) -> bool
    requires { 0 < weight }
    ensures { result ≡ has_bit weight byte }
{
    byte / weight % 2 == 1
}

/// Whether the bank's image runs, by the first byte of the reply.
pub fn runs(bank: Bank, byte: u8) -> bool
    ensures { result ≡ runs bank byte }
{
    match bank {
        Bank::A => has_bit(1, byte),
        Bank::B => has_bit(16, byte),
    }
}

/// Whether the bank's image runs after each reset.
pub fn is_committed(bank: Bank, byte: u8) -> bool
    ensures { result ≡ is_committed bank byte }
{
    match bank {
        Bank::A => has_bit(2, byte),
        Bank::B => has_bit(32, byte),
    }
}

/// Whether the bank's image can't run.
pub fn is_invalid(bank: Bank, byte: u8) -> bool
    ensures { result ≡ is_invalid bank byte }
{
    match bank {
        Bank::A => has_bit(4, byte),
        Bank::B => has_bit(64, byte),
    }
}

fn other_bank(bank: Bank) -> Bank
    ensures { result ≡ other_bank bank }
{
    match bank {
        Bank::A => Bank::B,
        Bank::B => Bank::A,
    }
}

/// Whether the bank's image runs, the other's doesn't, and it is valid.
pub fn runs_alone(bank: Bank, byte: u8) -> bool
    ensures { result ≡ runs_alone bank byte }
{
    runs(bank, byte) && !runs(other_bank(bank), byte) && !is_invalid(bank, byte)
}

fn stands(bank: Bank, byte: u8) -> bool
    ensures { result ≡ stands bank byte }
{
    runs_alone(bank, byte) && is_committed(bank, byte) && !is_committed(other_bank(bank), byte)
}

/// The bank that runs and is committed, alone, and valid: the other one may be overwritten.
#[tactic(auto, unfolding(crate::specs::Replies::standing_bank))]
pub fn standing_bank(reply: &[u8]) -> Option<Bank>
    ensures { result ≡ standing_bank reply.now }
{
    if reply.is_empty() {
        return None;
    }
    if stands(Bank::A, reply[0]) {
        Some(Bank::A)
    } else if stands(Bank::B, reply[0]) {
        Some(Bank::B)
    } else {
        None
    }
}

/// Whether the bank beside the old one runs, alone, and is valid.
#[tactic(auto, unfolding(crate::specs::Replies::new_runs))]
pub fn new_runs(old: Bank, reply: &[u8]) -> bool
    ensures { result ≡ new_runs old reply.now }
{
    !reply.is_empty() && runs_alone(other_bank(old), reply[0])
}

/// Whether it is also committed, alone.
#[tactic(auto, unfolding(crate::specs::Replies::new_is_committed))]
pub fn new_is_committed(old: Bank, reply: &[u8]) -> bool
    ensures { result ≡ new_is_committed old reply.now }
{
    !reply.is_empty() && stands(other_bank(old), reply[0])
}
