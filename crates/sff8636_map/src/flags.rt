ghost use Rattle.std.specs.Prelude.{◌≡◌};
ghost use Rattle.sff8636_map.specs.Flags.{flags_of, rx_power_flags, tx_bias_flags, tx_power_flags};

use crate::refusal::module_refusal;
use field_tables::{PerLimit, SffFault, all_bits, field, limit_bits};
use paged_memory::Image;

/// What a module warns of (SFF-8636, "Interrupt Flags"), of its four lanes each, the first first.
#[derive(Debug, Drop)]
pub struct Flags {
    pub temperature: PerLimit<bool>,
    pub vcc: PerLimit<bool>,
    /// Whether the signal from the host is lost.
    pub tx_los: [bool; 4],
    /// Whether the signal from the line is lost.
    pub rx_los: [bool; 4],
    pub tx_fault: [bool; 4],
    /// Whether the clock of the host's signal is not recovered.
    pub tx_lol: [bool; 4],
    /// Whether the clock of the line's signal is not recovered.
    pub rx_lol: [bool; 4],
    pub rx_power: PerLimit<[bool; 4]>,
    pub tx_bias: PerLimit<[bool; 4]>,
    pub tx_power: PerLimit<[bool; 4]>,
}

impl Flags {
    ghost use Rattle.std.specs.Prelude.{MatchOption};
    ghost use Rattle.sff8636_map.specs.Refusals.{module_fault};

    /// What the module of an image warns of.
    pub fn of(image: &Image) -> Result<Flags, SffFault>
        ensures { MatchOption (module_fault image.now) (result ≡ Ok (flags_of image.now)) (λ fault. result ≡ Err fault) }
    {
        if let Some(fault) = module_refusal(image) {
            return Err(fault);
        }
        Ok(Flags {
            temperature: limit_bits(image, field!(Sff8636 TempFlag)),
            vcc: limit_bits(image, field!(Sff8636 VccFlag)),
            tx_los: all_bits(image, field!(Sff8636 TxLos)),
            rx_los: all_bits(image, field!(Sff8636 RxLos)),
            tx_fault: all_bits(image, field!(Sff8636 TxFault)),
            tx_lol: all_bits(image, field!(Sff8636 TxLol)),
            rx_lol: all_bits(image, field!(Sff8636 RxLol)),
            rx_power: rx_power_flags(image),
            tx_bias: tx_bias_flags(image),
            tx_power: tx_power_flags(image),
        })
    }
}

fn rx_power_flags(image: &Image) -> PerLimit<[bool; 4]>
    ensures { result ≡ rx_power_flags image.now }
{
    PerLimit {
        high_alarm: all_bits(image, field!(Sff8636 RxPowerHighAlarm)),
        low_alarm: all_bits(image, field!(Sff8636 RxPowerLowAlarm)),
        high_warning: all_bits(image, field!(Sff8636 RxPowerHighWarning)),
        low_warning: all_bits(image, field!(Sff8636 RxPowerLowWarning)),
    }
}

fn tx_bias_flags(image: &Image) -> PerLimit<[bool; 4]>
    ensures { result ≡ tx_bias_flags image.now }
{
    PerLimit {
        high_alarm: all_bits(image, field!(Sff8636 TxBiasHighAlarm)),
        low_alarm: all_bits(image, field!(Sff8636 TxBiasLowAlarm)),
        high_warning: all_bits(image, field!(Sff8636 TxBiasHighWarning)),
        low_warning: all_bits(image, field!(Sff8636 TxBiasLowWarning)),
    }
}

fn tx_power_flags(image: &Image) -> PerLimit<[bool; 4]>
    ensures { result ≡ tx_power_flags image.now }
{
    PerLimit {
        high_alarm: all_bits(image, field!(Sff8636 TxPowerHighAlarm)),
        low_alarm: all_bits(image, field!(Sff8636 TxPowerLowAlarm)),
        high_warning: all_bits(image, field!(Sff8636 TxPowerHighWarning)),
        low_warning: all_bits(image, field!(Sff8636 TxPowerLowWarning)),
    }
}
