use crate::refusal::module_refusal;
use field_tables::{SffFault, all_readings, field, reading};
use paged_memory::Image;

/// What a module of `N` lanes measures, in steps of each field's unit (SFF-8636, "Free Side Device Monitors" and
/// "Channel Monitors").
#[derive(Debug, Drop)]
pub struct Monitors<const N: usize> {
    pub temperature: i32,
    pub vcc: i32,
    pub rx_power: [i32; N],
    pub tx_bias: [i32; N],
    pub tx_power: [i32; N],
}

impl<const N: usize> Monitors<N> {
    ghost use Rattle.std.specs.Prelude.{◌≡◌, IfOk, MatchOption};
    ghost use Rattle.sff8636_map.specs.Monitors.{MonitorsAreWords, monitors_of};
    ghost use Rattle.sff8636_map.specs.Refusals.{module_fault};

    /// What the module of an image measures. Modules of this standard have four lanes.
    pub fn of(image: &Image) -> Result<Monitors<N>, SffFault>
        requires { N ≡ 4 }
        ensures read { MatchOption (module_fault image.now) (result ≡ Ok (monitors_of image.now)) (λ fault. result ≡ Err fault) }
        ensures words { IfOk result (λ monitors. MonitorsAreWords monitors) }
    {
        if let Some(fault) = module_refusal(image) {
            return Err(fault);
        }
        Ok(Monitors {
            temperature: reading(image, field!(Sff8636 Temperature)),
            vcc: reading(image, field!(Sff8636 Vcc)),
            rx_power: all_readings(image, field!(Sff8636 RxPower)),
            tx_bias: all_readings(image, field!(Sff8636 TxBias)),
            tx_power: all_readings(image, field!(Sff8636 TxPower)),
        })
    }
}
