//! What a module's Active Control Set has of each host lane.
ghost use Rattle.std.specs.Prelude.{◌≡◌, ◌≤◌, ◌-◌, slice_index};
ghost use Rattle.applications.specs.ActiveSets.{active_in, is_active, is_lane_of, nothing_active};

use crate::app::App;
use field_tables::{all_numbers, field};
use paged_memory::Image;

/// The AppSelCodes and DataPathIDs of the host lanes 1 to 8.
#[derive(Clone, Copy, Debug, PartialEq, Eq)]
pub struct ActiveSet {
    pub app_sel_codes: [u8; 8],
    pub data_path_ids: [u8; 8],
}

impl ActiveSet {
    /// No lane is in a data path.
    pub(crate) fn nothing() -> ActiveSet
        ensures { result ≡ nothing_active }
    {
        ActiveSet {
            app_sel_codes: [0; 8],
            data_path_ids: [0; 8],
        }
    }

    /// That of an image, page 11h.
    pub(crate) fn of(image: &Image) -> ActiveSet
        ensures { result ≡ active_in image.now }
    {
        ActiveSet {
            app_sel_codes: all_numbers(image, field!(Cmis ActiveAppSel)),
            data_path_ids: all_numbers(image, field!(Cmis ActivePathId)),
        }
    }

    /// The AppSelCode of a host lane.
    pub(crate) fn app_sel_code(&self, lane: usize) -> u8
        ensures { result ≡ slice_index self.now.app_sel_codes (lane - 1) }
    {
        number_of_lane(&self.app_sel_codes, lane)
    }

    /// Whether the Application's path from a host lane on is among the active ones.
    #[tactic(auto, unfolding(crate::specs::ActiveSets::is_active))]
    pub(crate) fn is_active(&self, app: &App, host: usize) -> bool
        requires { host ≤ 8 }
        ensures { result ≡ is_active self.now app.now host }
    {
        (host..host + usize::from(app.host_lanes)).all(|lane| self.is_lane_of(app, host, lane))
    }

    // Whether a host lane has the AppSelCode and the DataPathID of that path.
    fn is_lane_of(&self, app: &App, host: usize, lane: usize) -> bool
        ensures { result ≡ is_lane_of self.now app.now host lane }
    {
        self.app_sel_code(lane) == app.number
            && usize::from(number_of_lane(&self.data_path_ids, lane)) + 1 == host
    }
}

/// What numbers of the host lanes 1 to 8 have of a lane.
pub(crate) fn number_of_lane(numbers: &[u8; 8], lane: usize) -> u8
    ensures { result ≡ slice_index numbers.now (lane - 1) }
{
    numbers.get(lane.saturating_sub(1)).copied().unwrap_or(0)
}
