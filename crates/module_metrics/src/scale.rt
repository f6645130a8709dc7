// What a number counts: ones, or parts of one.
ghost use Rattle.std.specs.Prelude.{◌≡◌, ◌≤◌};
ghost use Rattle.module_metrics.specs.Scales.{places_of};

/// What a number counts.
#[derive(Clone, Copy, Drop)]
pub enum Scale {
    Ones,
    Thousandths,
    Millionths,
    Billionths,
}

impl Scale {
    /// Ten to this many are one.
    pub fn places(self) -> u8
        ensures value { result ≡ places_of self }
        ensures few { result ≤ 9 }
    {
        match self {
            Scale::Ones => 0,
            Scale::Thousandths => 3,
            Scale::Millionths => 6,
            Scale::Billionths => 9,
        }
    }
}
