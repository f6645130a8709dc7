ghost use Rattle.std.specs.Prelude.{◌≡◌, ◌+◌, ◌≤◌, IsTrue};
ghost use Rattle.field_tables.specs.FieldRows.{row_of};
ghost use Rattle.field_tables.specs.Readings.{is_of_bytes};
ghost use Rattle.sff8472_map.specs.Flags.{flags_of, limit_flags};

use crate::refusal::flags_refusal;
use field_tables::{Field, PerLimit, SffFault, bit, bit_at, field};
use paged_memory::Image;

/// What a module warns of (SFF-8472, "Alarm and Warning Flag Bits" and "Real Time Diagnostic and Control Registers").
#[derive(Debug, Drop)]
pub struct Flags {
    pub temperature: PerLimit<bool>,
    pub vcc: PerLimit<bool>,
    pub tx_bias: PerLimit<bool>,
    pub tx_power: PerLimit<bool>,
    pub rx_power: PerLimit<bool>,
    pub tx_fault: bool,
    /// Whether the signal from the line is lost.
    pub rx_los: bool,
}

impl Flags {
    ghost use Rattle.std.specs.Prelude.{MatchOption};
    ghost use Rattle.sff8472_map.specs.Refusals.{flags_fault};

    /// What the module of an image warns of.
    pub fn of(image: &Image) -> Result<Flags, SffFault>
        ensures { MatchOption (flags_fault image.now) (result ≡ Ok (flags_of image.now)) (λ fault. result ≡ Err fault) }
    {
        if let Some(fault) = flags_refusal(image) {
            return Err(fault);
        }
        Ok(Flags {
            temperature: limit_flags(image, field!(Sff8472 Alarms), field!(Sff8472 Warnings), 1),
            vcc: limit_flags(image, field!(Sff8472 Alarms), field!(Sff8472 Warnings), 3),
            tx_bias: limit_flags(image, field!(Sff8472 Alarms), field!(Sff8472 Warnings), 5),
            tx_power: limit_flags(image, field!(Sff8472 Alarms), field!(Sff8472 Warnings), 7),
            rx_power: limit_flags(
                image,
                field!(Sff8472 RxAlarms),
                field!(Sff8472 RxWarnings),
                1,
            ),
            tx_fault: bit(image, field!(Sff8472 TxFault)),
            rx_los: bit(image, field!(Sff8472 RxLos)),
        })
    }
}

// The alarms and the warnings of a monitored value, from the number of its high ones in their fields on.
fn limit_flags(image: &Image, alarms: Field, warnings: Field, high: u8) -> PerLimit<bool>
    requires alarms { IsTrue (is_of_bytes (row_of alarms)) }
    requires warnings { IsTrue (is_of_bytes (row_of warnings)) }
    requires first { 1 ≤ high }
    requires last_alarm { high + 1 ≤ (row_of alarms).count }
    requires last_warning { high + 1 ≤ (row_of warnings).count }
    ensures { result ≡ limit_flags image.now alarms warnings high }
{
    PerLimit {
        high_alarm: bit_at(image, alarms, high),
        low_alarm: bit_at(image, alarms, high + 1),
        high_warning: bit_at(image, warnings, high),
        low_warning: bit_at(image, warnings, high + 1),
    }
}
