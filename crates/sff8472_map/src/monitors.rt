use crate::refusal::measured_refusal;
use field_tables::{SffFault, all_readings, field, is_sum_right, reading, sum_of};
use paged_memory::Image;

/// What a module of `N` lanes measures, in steps of each field's unit (SFF-8472, "Real Time Diagnostic and
/// Control Registers").
#[derive(Debug, Drop)]
pub struct Monitors<const N: usize> {
    pub temperature: i32,
    pub vcc: i32,
    pub tx_bias: [i32; N],
    pub tx_power: [i32; N],
    pub rx_power: [i32; N],
    /// Whether the sum of bytes 0 to 94 of device A2 (CC_DMI) is right; the limits are among them.
    pub sum_dmi: bool,
}

impl<const N: usize> Monitors<N> {
    ghost use Rattle.std.specs.Prelude.{◌≡◌, IfOk, MatchOption};
    ghost use Rattle.sff8472_map.specs.Monitors.{MonitorsAreWords, monitors_of};
    ghost use Rattle.sff8472_map.specs.Refusals.{measured_fault};

    /// What the module of an image measures. Modules of this standard have one lane.
    pub fn of(image: &Image) -> Result<Monitors<N>, SffFault>
        requires { N ≡ 1 }
        ensures read { MatchOption (measured_fault image.now) (result ≡ Ok (monitors_of image.now)) (λ fault. result ≡ Err fault) }
        ensures words { IfOk result (λ monitors. MonitorsAreWords monitors) }
    {
        if let Some(fault) = measured_refusal(image) {
            return Err(fault);
        }
        Ok(Monitors {
            temperature: reading(image, field!(Sff8472 Temperature)),
            vcc: reading(image, field!(Sff8472 Vcc)),
            tx_bias: all_readings(image, field!(Sff8472 TxBias)),
            tx_power: all_readings(image, field!(Sff8472 TxPower)),
            rx_power: all_readings(image, field!(Sff8472 RxPower)),
            sum_dmi: is_sum_right(image, sum_of!(Sff8472 SumDmi)),
        })
    }
}
