//! Controls of page 13h, each of one byte, that switch patterns and loopbacks.
ghost use Rattle.std.specs.Prelude.{◌≡◌, ◌≤◌, ◌<◌};
ghost use Rattle.lane_controls.specs.Controls as spec;

/// Where a pattern is made, or checked.
#[derive(Clone, Copy)]
pub enum PatternUnit {
    HostGenerator,
    MediaGenerator,
    HostChecker,
    MediaChecker,
}

/// Two lanes whose patterns share a byte.
#[derive(Clone, Copy)]
pub enum LanePair {
    /// Lanes 1 and 2.
    First,
    /// Lanes 3 and 4.
    Second,
    /// Lanes 5 and 6.
    Third,
    /// Lanes 7 and 8.
    Fourth,
}

/// Where lanes are looped back.
#[derive(Clone, Copy)]
pub enum Loopback {
    MediaSideOutput,
    MediaSideInput,
    HostSideOutput,
    HostSideInput,
}

/// A control of one byte.
#[derive(Clone, Copy)]
pub enum Control {
    Enable(PatternUnit),
    Invert(PatternUnit),
    ByteSwap(PatternUnit),
    /// Before FEC for a generator, after FEC for a checker.
    SideOfFec(PatternUnit),
    /// The codes of the patterns of two lanes.
    Pattern(PatternUnit, LanePair),
    Loopback(Loopback),
    /// How results are gated and reset.
    Measurement,
}

impl Control {
    /// Its byte on page 13h.
    #[tactic(auto, using(crate::proofs::ControlLaws::within))]
    pub fn address(self) -> u8
        ensures value { result ≡ spec.address_of self }
        ensures from { 144 ≤ result }
        ensures below { result < 184 }
    {
        match self {
            Control::Enable(unit) => unit.first_byte(),
            Control::Invert(unit) => unit.first_byte() + 1,
            Control::ByteSwap(unit) => unit.first_byte() + 2,
            Control::SideOfFec(unit) => unit.first_byte() + 3,
            Control::Pattern(unit, pair) => unit.first_byte() + 4 + pair.index(),
            Control::Loopback(loopback) => loopback.byte(),
            Control::Measurement => 177,
        }
    }

    /// The host lanes of the paths that bits of it concern, where these are the host lanes of each media lane's path: bit i-1 is
    /// lane i.
    pub fn host_lanes(self, media_paths: &[u8; 8], mask: u8) -> u8
        ensures { result ≡ spec.host_lanes media_paths.now self mask }
    {
        let lanes = self.own_lanes(mask);
        if self.is_media() {
            hosts_of(media_paths, lanes)
        } else {
            lanes
        }
    }

    fn own_lanes(self, mask: u8) -> u8
        ensures { result ≡ spec.own_lanes self mask }
    {
        match self {
            Control::Pattern(_, pair) => pair.lanes(mask % 16 > 0, mask / 16 > 0),
            Control::Measurement => 0,
            _ => mask,
        }
    }

    /// Whether it is a loopback.
    pub fn is_loopback(self) -> bool
        ensures { result ≡ spec.is_loopback self }
    {
        matches!(self, Control::Loopback(_))
    }

    /// Whether its lanes are those of the media side.
    pub fn is_media(self) -> bool
        ensures { result ≡ spec.is_media self }
    {
        match self {
            Control::Enable(unit)
            | Control::Invert(unit)
            | Control::ByteSwap(unit)
            | Control::SideOfFec(unit)
            | Control::Pattern(unit, _) => unit.is_media(),
            Control::Loopback(loopback) => loopback.is_media(),
            Control::Measurement => false,
        }
    }
}

/// The host lanes of the paths of these media lanes, where these are the host lanes of each media lane's path.
#[tactic(auto, unfolding(crate::specs::Controls::hosts_of))]
pub fn hosts_of(paths: &[u8; 8], lanes: u8) -> u8
    ensures { result ≡ spec.hosts_of paths.now lanes }
{
    ((hosts_at(paths, lanes, 0) | hosts_at(paths, lanes, 1))
        | (hosts_at(paths, lanes, 2) | hosts_at(paths, lanes, 3)))
        | ((hosts_at(paths, lanes, 4) | hosts_at(paths, lanes, 5))
            | (hosts_at(paths, lanes, 6) | hosts_at(paths, lanes, 7)))
}

// Of a media lane, counted from 0, if it is one of these.
fn hosts_at(paths: &[u8; 8], lanes: u8, index: u8) -> u8
    requires { index < 8 }
    ensures { result ≡ spec.hosts_at paths.now lanes index }
{
    if lanes >> index & 1 == 1 {
        paths[usize::from(index)]
    } else {
        0
    }
}

impl PatternUnit {
    fn is_media(self) -> bool
        ensures { result ≡ spec.is_media_unit self }
    {
        matches!(
            self,
            PatternUnit::MediaGenerator | PatternUnit::MediaChecker
        )
    }

    fn first_byte(self) -> u8
        ensures value { result ≡ spec.first_byte_of self }
        ensures below { result < 169 }
    {
        match self {
            PatternUnit::HostGenerator => 144,
            PatternUnit::MediaGenerator => 152,
            PatternUnit::HostChecker => 160,
            PatternUnit::MediaChecker => 168,
        }
    }
}

impl LanePair {
    fn index(self) -> u8
        ensures value { result ≡ spec.index_of self }
        ensures below { result < 4 }
    {
        match self {
            LanePair::First => 0,
            LanePair::Second => 1,
            LanePair::Third => 2,
            LanePair::Fourth => 3,
        }
    }

    fn lanes(self, first: bool, second: bool) -> u8
        ensures { result ≡ spec.lanes_of_pair self first second }
    {
        let first_lane = match self {
            LanePair::First => 1,
            LanePair::Second => 4,
            LanePair::Third => 16,
            LanePair::Fourth => 64,
        };
        sum_of(first_lane, first, second)
    }
}

fn sum_of(lane: u8, first: bool, second: bool) -> u8
    requires { lane ≤ 64 }
    ensures { result ≡ spec.sum_of lane first second }
{
    match (first, second) {
        (true, true) => lane + 2 * lane,
        (true, false) => lane,
        (false, true) => 2 * lane,
        (false, false) => 0,
    }
}

impl Loopback {
    fn is_media(self) -> bool
        ensures { result ≡ spec.is_media_loopback self }
    {
        matches!(self, Loopback::MediaSideOutput | Loopback::MediaSideInput)
    }

    fn byte(self) -> u8
        ensures { result ≡ spec.byte_of_loopback self }
    {
        match self {
            Loopback::MediaSideOutput => 180,
            Loopback::MediaSideInput => 181,
            Loopback::HostSideOutput => 182,
            Loopback::HostSideInput => 183,
        }
    }
}
