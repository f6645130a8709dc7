//! What changes of a module as plain numbers, for a caller that keeps them in memory of another language.
ghost use Rattle.std.specs.Prelude.{◌≡◌, map};
ghost use Rattle.std.specs.List.{list_all};
ghost use Rattle.datapath_states.specs.StateCodes.{state_at};
ghost use Rattle.module_states.specs.Codes as module_codes;
ghost use Rattle.sim_module.specs.SavedModules as spec;

use crate::delays::Delays;
use crate::lane::Lane;
use crate::moving::{LANE_FLAGS, Moving};
use applications::LaneSet;
use datapath_states::{ConfigStatus, PathState};
use module_states::ModuleState;
use paged_memory::MappedPage;

/// A lane as plain numbers.
#[repr(C)]
#[derive(Clone, Copy, Debug, PartialEq, Eq)]
pub struct SavedLane {
    /// The ticks until the work of a transient state is done, and 0 if none runs.
    pub left: u16,
    /// The code of the state of its data path.
    pub path: u8,
    /// The code of what became of the last apply.
    pub status: u8,
    /// 1 if that is a status of a vendor's own, else 0.
    pub custom: u8,
    /// Its control byte of Staged Control Set 0.
    pub staged: u8,
    /// Its control byte of the Active Control Set.
    pub active: u8,
    /// 1 if an apply in progress keeps a control byte for it, else 0.
    pub keeps: u8,
    /// That byte, else 0.
    pub kept: u8,
}

/// What changes of a module as plain numbers.
#[repr(C)]
#[derive(Clone, Copy, Debug, PartialEq, Eq)]
pub struct SavedModule {
    pub delays: Delays,
    /// The ticks until the work of a transient module state is done, and 0 if none runs.
    pub left: u16,
    /// The ticks until an apply in progress is done, and 0 if none is.
    pub apply_left: u16,
    /// The bank that the upper half shows.
    pub bank: u8,
    /// The page that the upper half shows.
    pub page: u8,
    /// The bank that waits for a page.
    pub waiting: u8,
    /// 1 if the host holds the low power pin, else 0.
    pub pin: u8,
    /// Byte 26 of lower memory, as it was stored.
    pub control: u8,
    /// The code of the module's state.
    pub state: u8,
    /// The lanes whose DPDeinit bit is set: bit i-1 is that of lane i.
    pub deinit: u8,
    /// The latched flags of the module.
    pub module_flags: u8,
    /// The latched flags of the lanes, byte by byte.
    pub lane_flags: [u8; LANE_FLAGS],
    /// Lane 1 first.
    pub lanes: [SavedLane; 8],
}

impl SavedLane {
    fn of(lane: Lane) -> SavedLane
        ensures { result ≡ spec.saved_lane lane }
    {
        SavedLane {
            left: lane.ticks_left,
            path: lane.path.code(),
            status: lane.status.code(),
            custom: match lane.status {
                ConfigStatus::Custom(_) => 1,
                _ => 0,
            },
            staged: lane.staged,
            active: lane.active,
            keeps: match lane.applying {
                Some(_) => 1,
                None => 0,
            },
            kept: lane.applying.unwrap_or(0),
        }
    }

    // The lane that has these numbers, if one has.
    fn lane(&self) -> Option<Lane>
        ensures { result ≡ spec.lane_numbered self.now }
    {
        Some(Lane {
            path: path_numbered(self.path)?,
            ticks_left: self.left,
            status: status_numbered(self.custom, self.status)?,
            staged: self.staged,
            active: self.active,
            applying: kept_numbered(self.keeps, self.kept)?,
        })
    }

    fn is_lane(&self) -> bool
        ensures { result ≡ spec.is_lane self.now }
    {
        self.lane().is_some()
    }

    fn lane_or_none(&self) -> Lane
        ensures { result ≡ spec.lane_of self.now }
    {
        self.lane().unwrap_or(NO_LANE)
    }
}

impl Moving {
    ghost use Rattle.std.specs.Prelude.{Some};

    /// Its numbers.
    pub fn save(&self) -> SavedModule
        ensures numbers { result ≡ spec.saved self.now }
        ensures back { spec.restored result ≡ Some self.now }
    {
        SavedModule {
            delays: self.delays,
            left: self.ticks_left,
            apply_left: self.apply_left,
            bank: self.selection.bank,
            page: self.selection.page,
            waiting: self.selection.waiting,
            pin: if self.pin { 1 } else { 0 },
            control: self.control,
            state: self.state.code(),
            deinit: self.deinit.byte(),
            module_flags: self.module_flags,
            lane_flags: self.lane_flags,
            lanes: self.saved_lanes(),
        }
    }

    fn saved_lanes(&self) -> [SavedLane; 8]
        ensures { result ≡ map spec.saved_lane self.now.lanes }
    {
        let mut saved = [SavedLane::of(self.lanes[0]); 8];
        for (index, lane) in saved.iter_mut().enumerate() {
            *lane = SavedLane::of(self.lanes[index]);
        }
        saved
    }

    /// What has these numbers, if anything has.
    #[tactic(auto, unfolding(crate::specs::SavedModules::restored))]
    pub fn restore(saved: &SavedModule) -> Option<Moving>
        ensures { result ≡ spec.restored saved.now }
    {
        if saved.pin > 1 || !are_lanes(&saved.lanes) {
            return None;
        }
        Some(Moving {
            delays: saved.delays,
            selection: MappedPage {
                bank: saved.bank,
                page: saved.page,
                waiting: saved.waiting,
            },
            pin: saved.pin == 1,
            control: saved.control,
            state: state_numbered(saved.state)?,
            ticks_left: saved.left,
            lanes: lanes_numbered(&saved.lanes),
            deinit: LaneSet::from(saved.deinit),
            apply_left: saved.apply_left,
            module_flags: saved.module_flags,
            lane_flags: saved.lane_flags,
        })
    }
}

// What stands for a lane that there isn't.
const NO_LANE: Lane = Lane {
    path: PathState::Deactivated,
    ticks_left: 0,
    status: ConfigStatus::Undefined,
    staged: 0,
    active: 0,
    applying: None,
};

fn are_lanes(saved: &[SavedLane; 8]) -> bool
    ensures { result ≡ list_all spec.is_lane saved.now }
{
    saved.iter().all(|lane| lane.is_lane())
}

fn lanes_numbered(saved: &[SavedLane; 8]) -> [Lane; 8]
    ensures { result ≡ map spec.lane_of saved.now }
{
    let mut lanes = [NO_LANE; 8];
    for (index, lane) in lanes.iter_mut().enumerate() {
        *lane = saved[index].lane_or_none();
    }
    lanes
}

fn path_numbered(code: u8) -> Option<PathState>
    ensures { result ≡ state_at code }
{
    match datapath_states::state_of(code) {
        Ok(state) => Some(state),
        Err(_) => None,
    }
}

fn status_numbered(custom: u8, code: u8) -> Option<ConfigStatus>
    ensures { result ≡ spec.status_numbered custom code }
{
    match custom {
        0 => match datapath_states::status_of(code) {
            Ok(status) => Some(status),
            Err(_) => None,
        },
        1 => Some(ConfigStatus::Custom(code)),
        _ => None,
    }
}

fn kept_numbered(keeps: u8, kept: u8) -> Option<Option<u8>>
    ensures { result ≡ spec.kept_numbered keeps kept }
{
    match (keeps, kept) {
        (0, 0) => Some(None),
        (1, kept) => Some(Some(kept)),
        _ => None,
    }
}

fn state_numbered(code: u8) -> Option<ModuleState>
    ensures { result ≡ module_codes.state_at code }
{
    match module_states::state_of(code) {
        Ok(state) => Some(state),
        Err(_) => None,
    }
}
