// The host lanes that control bytes put into a data path.
ghost use Rattle.std.specs.Prelude.{◌≡◌, ◌≤◌};
ghost use Rattle.saved_provisioning.specs.UsedLanes as spec;

use control_sets::ControlSet;
use field_tables::LaneSet;
use lane_controls::SettingsChange;

/// The change for those of its lanes that are in a data path.
pub fn wanted_of(control: &ControlSet, change: &SettingsChange) -> SettingsChange
    ensures { result ≡ spec.wanted_of control.now change.now }
{
    let lanes = LaneSet::from(change.lanes.byte() & used_byte(control));
    let settings = change.settings;
    SettingsChange {
        lanes,
        settings,
        tries: change.tries,
    }
}

fn used_byte(control: &ControlSet) -> u8
    ensures { result ≡ spec.used_byte control.now }
{
    let [one, two, three, four, five, six, seven, eight] = *control;
    let first = bit_of(one, 1) + bit_of(two, 2) + bit_of(three, 4) + bit_of(four, 8);
    first + bit_of(five, 16) + bit_of(six, 32) + bit_of(seven, 64) + bit_of(eight, 128)
}

// The lane's bit, unless its control byte is 0.
fn bit_of(byte: u8, bit: u8) -> u8
    ensures value { result ≡ spec.bit_of byte bit }
    ensures least { result ≤ bit }
{
    if byte == 0 { 0 } else { bit }
}
