// What a module measures.
ghost use Rattle.std.specs.Prelude.{◌≡◌};
ghost use Rattle.report_entries.specs.Quantities.{name_of};

/// What a module measures of itself or of its lanes.
#[derive(Clone, Copy)]
pub enum Quantity {
    Temperature,
    /// The supply voltage.
    Vcc,
    /// The transmitted light.
    TxPower,
    /// The bias current of a transmitter's laser.
    TxBias,
    /// The received light.
    RxPower,
}

impl Quantity {
    #[tactic(auto, unfolding(crate::specs::Quantities::name_of))]
    pub(crate) fn name(self) -> &'static str
        ensures { result.now ≡ name_of self }
    {
        match self {
            Quantity::Temperature => "temperature",
            Quantity::Vcc => "vcc",
            Quantity::TxPower => "tx-power",
            Quantity::TxBias => "tx-bias",
            Quantity::RxPower => "rx-power",
        }
    }
}
