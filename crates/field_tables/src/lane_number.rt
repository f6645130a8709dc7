use std::marker::Model;

/// The number of a lane, 1 to 8.
#[derive(Clone, Copy, Debug, PartialEq, Eq)]
pub struct LaneNumber {
    number: u8,
}

impl Model for LaneNumber {
    ghost use Rattle.std.specs.Prelude.{ℕ};
    ghost use Rattle.std.specs.Coded.{coded_ℕ};
    ghost use Rattle.field_tables.specs.LaneSets.{IsLane};

    ghost Value = { ℕ };

    ghost coded = { coded_ℕ };

    ghost view = { λ lane. lane.number };

    ghost invariant = { λ lane. IsLane lane.number };

    ghost inverse = { λ number. record { number = number } };
}

impl LaneNumber {
    ghost use Rattle.std.specs.Prelude.{◌≡◌, ◌+◌, ◌-◌, ◌<◌};
    ghost use Rattle.std.specs.List.{range_with_len};
    ghost use Rattle.field_tables.specs.LaneSets.{IsLane};

    /// Lanes 1 to 8.
    pub fn all() -> [LaneNumber; 8]
        ensures { result ≡ range_with_len 1 8 }
    {
        [
            LaneNumber { number: 1 },
            LaneNumber { number: 2 },
            LaneNumber { number: 3 },
            LaneNumber { number: 4 },
            LaneNumber { number: 5 },
            LaneNumber { number: 6 },
            LaneNumber { number: 7 },
            LaneNumber { number: 8 },
        ]
    }

    /// The lane of a place in a list of eight, lane 1 first.
    pub fn at(index: u8) -> LaneNumber
        requires { index < 8 }
        ensures { result ≡ index + 1 }
    {
        LaneNumber { number: index + 1 }
    }

    pub fn number(self) -> u8
        ensures same { result ≡ self }
        ensures lane { IsLane result }
    {
        self.number
    }

    /// Its place in a list of eight, lane 1 first.
    pub fn index(self) -> usize
        ensures place { result ≡ self - 1 }
        ensures lane { IsLane self }
    {
        usize::from(self.number) - 1
    }
}
