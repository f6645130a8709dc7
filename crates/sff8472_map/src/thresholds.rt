use crate::refusal::measured_refusal;
use field_tables::{PerLimit, SffFault, field, limits_of};
use paged_memory::Image;

/// The limits of what a module measures, in steps of each field's unit (SFF-8472, "Alarm and Warning Thresholds").
#[derive(Debug, Drop)]
pub struct Thresholds {
    pub temperature: PerLimit<i32>,
    pub vcc: PerLimit<i32>,
    pub tx_bias: PerLimit<i32>,
    pub tx_power: PerLimit<i32>,
    pub rx_power: PerLimit<i32>,
}

impl Thresholds {
    ghost use Rattle.std.specs.Prelude.{◌≡◌, IfOk, MatchOption};
    ghost use Rattle.sff8472_map.specs.Thresholds.{ThresholdsAreWords, thresholds_of};
    ghost use Rattle.sff8472_map.specs.Refusals.{measured_fault};

    /// The limits of the module of an image.
    pub fn of(image: &Image) -> Result<Thresholds, SffFault>
        ensures read { MatchOption (measured_fault image.now) (result ≡ Ok (thresholds_of image.now)) (λ fault. result ≡ Err fault) }
        ensures words { IfOk result (λ thresholds. ThresholdsAreWords thresholds) }
    {
        if let Some(fault) = measured_refusal(image) {
            return Err(fault);
        }
        Ok(Thresholds {
            temperature: limits_of(image, field!(Sff8472 TempLimits)),
            vcc: limits_of(image, field!(Sff8472 VccLimits)),
            tx_bias: limits_of(image, field!(Sff8472 TxBiasLimits)),
            tx_power: limits_of(image, field!(Sff8472 TxPowerLimits)),
            rx_power: limits_of(image, field!(Sff8472 RxPowerLimits)),
        })
    }
}
