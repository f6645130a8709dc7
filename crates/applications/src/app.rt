ghost use Rattle.std.specs.Prelude.{◌≡◌};
ghost use Rattle.applications.specs.Usable as spec;

use field_tables::LaneSet;

/// How many Applications a module advertises at most.
pub const MAX_APPS: usize = 15;

/// An Application: what a data path of the module may carry, and on which lanes it may begin.
#[derive(Clone, Copy, Debug, PartialEq, Eq, Default)]
pub struct App {
    /// 1 to 15; AppSelCode names it by this number.
    pub number: u8,
    /// HostInterfaceID (SFF-8024).
    pub host_id: u8,
    /// MediaInterfaceID, whose table MediaType chooses (SFF-8024).
    pub media_id: u8,
    pub host_lanes: u8,
    pub media_lanes: u8,
    /// The host lanes where a data path may begin.
    pub host_starts: LaneSet,
    /// The media lanes where a data path may begin.
    pub media_starts: LaneSet,
}

impl App {
    /// Whether a data path can have its numbers of lanes. Where it may begin doesn't count.
    pub fn is_usable(&self) -> bool
        ensures { result ≡ spec.is_usable self.now }
    {
        is_lane_count(self.host_lanes) && is_lane_count(self.media_lanes)
    }
}

fn is_lane_count(count: u8) -> bool
    ensures { result ≡ spec.is_lane_count count }
{
    1 <= count && count <= 8
}
