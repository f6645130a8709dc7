// Whole numbers of parts of a unit as decimal fractions of it.
ghost use Rattle.std.specs.Prelude.{◌≡◌, ◌++◌, ◌<◌, ◌≤◌, ◌^◌, OnOk, decimal};
ghost use Rattle.report_entries.specs.Shown.{minus_of};
ghost use Rattle.module_metrics.specs.Scaled.{fraction, pointed, scaled};

use itoa::Buffer;
use std::alloc::AllocError;

/// Adds so many parts, of which `10 ^ places` are one.
#[tactic(auto, unfolding(crate::specs::Scaled::scaled))]
pub fn push_scaled(text: &mut Vec<u8>, parts: i64, places: u8) -> Result<(), AllocError>
    requires { places ≤ 9 }
    ensures { OnOk result (text.new.items ≡ text.old.items ++ scaled places parts) }
{
    let one = ten_to(places);
    let size = parts.unsigned_abs();
    push_minus(text, parts)?;
    push_number(text, size / one)?;
    push_after_point(text, places, size % one)
}

fn push_minus(text: &mut Vec<u8>, parts: i64) -> Result<(), AllocError>
    ensures { OnOk result (text.new.items ≡ text.old.items ++ minus_of parts) }
{
    if parts < 0 {
        text.push(b'-')?;
    }
    Ok(())
}

fn push_after_point(text: &mut Vec<u8>, places: u8, rest: u64) -> Result<(), AllocError>
    requires few { places ≤ 9 }
    requires below { rest < 10 ^ places }
    ensures { OnOk result (text.new.items ≡ text.old.items ++ pointed places rest) }
{
    if rest == 0 {
        return Ok(());
    }
    text.push(b'.')?;
    push_fraction(text, places, rest)
}

fn push_fraction(text: &mut Vec<u8>, places: u8, rest: u64) -> Result<(), AllocError>
    requires { places ≤ 9 }
    ensures { OnOk result (text.new.items ≡ text.old.items ++ fraction places rest) }
{
    if places == 0 {
        return Ok(());
    }
    if rest == 0 {
        return Ok(());
    }
    let one = ten_to(places - 1);
    push_number(text, rest / one)?;
    push_fraction(text, places - 1, rest % one)
}

fn push_number(text: &mut Vec<u8>, number: u64) -> Result<(), AllocError>
    ensures { OnOk result (text.new.items ≡ text.old.items ++ decimal number) }
{
    text.extend_from_slice(Buffer::new().format(number).as_bytes())
}

fn ten_to(places: u8) -> u64
    requires { places ≤ 9 }
    ensures value { result ≡ 10 ^ places }
    ensures some { 0 < result }
{
    match places {
        0 => 1,
        1 => 10,
        2 => 100,
        3 => 1_000,
        4 => 10_000,
        5 => 100_000,
        6 => 1_000_000,
        7 => 10_000_000,
        8 => 100_000_000,
        _ => 1_000_000_000,
    }
}
