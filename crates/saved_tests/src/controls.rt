// Controls by their bytes on page 13h.
ghost use Rattle.std.specs.Prelude.{◌≡◌};
ghost use Rattle.saved_tests.specs.SavedControls as spec;

use lane_controls::{Control, LanePair, Loopback, PatternUnit};

/// Whether a control stands there.
pub fn is_control(byte: u8) -> bool
    ensures { result ≡ spec.is_control byte }
{
    matches!(byte, 144..=175 | 177 | 180..=183)
}

/// The control that stands there, if one does.
pub fn control_in(byte: u8) -> Control
    ensures { result ≡ spec.control_in byte }
{
    if byte < 176 {
        let place = byte.saturating_sub(144);
        control_of_unit(unit_in(place / 8), place % 8)
    } else if byte == 177 {
        Control::Measurement
    } else {
        Control::Loopback(loopback_in(byte.saturating_sub(180)))
    }
}

fn control_of_unit(unit: PatternUnit, place: u8) -> Control
    ensures { result ≡ spec.control_of_unit unit place }
{
    match place {
        0 => Control::Enable(unit),
        1 => Control::Invert(unit),
        2 => Control::ByteSwap(unit),
        3 => Control::SideOfFec(unit),
        _ => Control::Pattern(unit, pair_in(place)),
    }
}

fn unit_in(number: u8) -> PatternUnit
    ensures { result ≡ spec.unit_in number }
{
    match number {
        0 => PatternUnit::HostGenerator,
        1 => PatternUnit::MediaGenerator,
        2 => PatternUnit::HostChecker,
        _ => PatternUnit::MediaChecker,
    }
}

fn pair_in(place: u8) -> LanePair
    ensures { result ≡ spec.pair_in place }
{
    match place {
        4 => LanePair::First,
        5 => LanePair::Second,
        6 => LanePair::Third,
        _ => LanePair::Fourth,
    }
}

/// The loopback of this number, in the order of their bytes.
pub fn loopback_in(number: u8) -> Loopback
    ensures { result ≡ spec.loopback_in number }
{
    match number {
        0 => Loopback::MediaSideOutput,
        1 => Loopback::MediaSideInput,
        2 => Loopback::HostSideOutput,
        _ => Loopback::HostSideInput,
    }
}
