ghost use Rattle.std.specs.Prelude.{◌≡◌};
ghost use Rattle.external_calibration.specs.Amounts as spec;

use field_tables::Unit;

/// What a module measures.
#[derive(Clone, Copy, Debug, PartialEq, Eq)]
pub enum Monitor {
    Temperature,
    Vcc,
    TxBias,
    TxPower,
    RxPower,
}

impl Monitor {
    /// Of which a calibrated reading counts the steps.
    pub fn unit(self) -> Unit
        ensures { result ≡ spec.unit_of self }
    {
        match self {
            Monitor::Temperature => Unit::Temperature,
            Monitor::Vcc => Unit::Voltage,
            Monitor::TxBias => Unit::Bias,
            Monitor::TxPower => Unit::OpticalPower,
            Monitor::RxPower => Unit::OpticalPower,
        }
    }
}
