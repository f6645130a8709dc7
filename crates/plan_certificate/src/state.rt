ghost use Rattle.std.specs.Prelude.{◌≡◌, ◌<◌};
ghost use Rattle.plan_certificate.specs.States as spec;

use field_tables::LaneSet;

/// How many host lanes a module has.
pub const HOST_LANES: u8 = 8;

/// How many states there are: at each of 9 boundaries, 256 sets of used media lanes.
pub const STATES: usize = 2304;

/// How far a plan has come, from host lane 1 upwards.
#[derive(Clone, Copy, Debug, PartialEq, Eq, Default)]
pub struct State {
    /// How many host lanes are decided, 0 to 8.
    pub boundary: u8,
    /// The media lanes that are used.
    pub used: LaneSet,
}

/// One decision on the next host lane: it stays free, or a data path begins there.
#[derive(Clone, Copy, Debug, PartialEq, Eq, Default)]
pub struct Decision {
    /// What the decision weighs.
    pub weight: u64,
    /// The state that it leads to.
    pub end: State,
}

impl State {
    /// No host lane is decided, no media lane used.
    pub fn start() -> State
        ensures { result ≡ spec.start }
    {
        State {
            boundary: 0,
            used: LaneSet::empty(),
        }
    }

    /// The state at a place.
    pub fn at(place: usize) -> State
        requires { place < STATES }
        ensures { result ≡ spec.state_at place }
    {
        State {
            boundary: (place / 256) as u8,
            used: LaneSet::from((place % 256) as u8),
        }
    }

    /// The place among all states, by boundary and then by the byte of used media lanes.
    pub fn place(self) -> usize
        ensures { result ≡ spec.state_place self }
    {
        256 * usize::from(self.boundary) + usize::from(self.used.byte())
    }

    /// The decision that leaves the next host lane free.
    pub fn free_decision(self) -> Decision
        requires { self.boundary < 8 }
        ensures { result ≡ spec.free_decision self }
    {
        Decision {
            weight: 0,
            end: State {
                boundary: self.boundary + 1,
                used: self.used,
            },
        }
    }
}
