//! Which results of a link test page 14h is to show.
ghost use Rattle.std.specs.Prelude.{◌≡◌, ◌<◌};
ghost use Rattle.lane_controls.specs.ResultSets as spec;

/// Which interface of a module.
#[derive(Clone, Copy, Debug, PartialEq, Eq)]
pub enum Side {
    Host,
    Media,
}

/// Four lanes whose counters show at once.
#[derive(Clone, Copy, Debug, PartialEq, Eq)]
pub enum LaneQuad {
    /// Lanes 1 to 4.
    Lower,
    /// Lanes 5 to 8.
    Upper,
}

impl LaneQuad {
    /// The one that a lane is in.
    pub fn of(lane: u8) -> LaneQuad
        ensures { result ≡ spec.quad_of lane }
    {
        if lane < 5 {
            LaneQuad::Lower
        } else {
            LaneQuad::Upper
        }
    }
}

/// Results that page 14h shows at once.
#[derive(Clone, Copy, Debug, PartialEq, Eq)]
pub enum ResultSet {
    /// The error ratio of each lane, of both sides.
    ErrorRatio,
    /// Errors and bits of four lanes.
    Counters(Side, LaneQuad),
    /// The signal to noise ratio of each lane of a side; they show with those of the other side, which a module may lack.
    SignalToNoise(Side),
    /// The error ratios of the last gate time.
    GatedErrorRatio,
    /// Errors and bits of four lanes in the last gate time.
    GatedCounters(Side, LaneQuad),
}

impl ResultSet {
    /// The code that selects it.
    pub fn code(self) -> u8
        ensures { result ≡ spec.code_of self }
    {
        match self {
            ResultSet::ErrorRatio => 1,
            ResultSet::Counters(side, quad) => code_of_counters(side, quad),
            ResultSet::SignalToNoise(_) => 6,
            ResultSet::GatedErrorRatio => 17,
            ResultSet::GatedCounters(side, quad) => 16 + code_of_counters(side, quad),
        }
    }
}

fn code_of_counters(side: Side, quad: LaneQuad) -> u8
    ensures value { result ≡ spec.code_of_counters side quad }
    ensures few { result < 6 }
{
    match (side, quad) {
        (Side::Host, LaneQuad::Lower) => 2,
        (Side::Host, LaneQuad::Upper) => 3,
        (Side::Media, LaneQuad::Lower) => 4,
        (Side::Media, LaneQuad::Upper) => 5,
    }
}
