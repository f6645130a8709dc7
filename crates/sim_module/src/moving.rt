//! What changes of a module.
ghost use Rattle.std.specs.Prelude.{◌≡◌, ◌-◌, get_or};
ghost use Rattle.sim_module.specs.Lanes.{no_lane};

use crate::delays::Delays;
use crate::lane::Lane;
use applications::LaneSet;
use control_sets::ControlSet;
use datapath_states::PathState;
use field_tables::LaneNumber;
use module_states::ModuleState;
use paged_memory::MappedPage;
use std::array;

/// How many bytes have flags of the lanes, from that of the changed path states on.
pub const LANE_FLAGS: usize = 19;

/// What changes of a module, and the delays with which it does.
#[derive(Clone, Copy, Debug)]
pub struct Moving {
    pub(crate) delays: Delays,
    pub(crate) selection: MappedPage,
    /// Whether the host holds the low power pin.
    pub(crate) pin: bool,
    /// Byte 26 of lower memory, as it was stored.
    pub(crate) control: u8,
    pub(crate) state: ModuleState,
    /// The ticks until the work of a transient module state is done, and 0 if none runs.
    pub(crate) ticks_left: u16,
    pub(crate) lanes: [Lane; 8],
    /// The lanes whose DPDeinit bit is set.
    pub(crate) deinit: LaneSet,
    /// The ticks until an apply in progress is done, and 0 if none is.
    pub(crate) apply_left: u16,
    /// The latched flags of the module.
    pub(crate) module_flags: u8,
    /// The latched flags of the lanes, byte by byte.
    pub(crate) lane_flags: [u8; LANE_FLAGS],
}

impl Moving {
    ghost use Rattle.std.specs.Prelude.{◌≡◌};
    ghost use Rattle.sim_module.specs.Lanes as lanes;
    ghost use Rattle.sim_module.specs.Record.{bare, module_of};
    ghost use Rattle.sim_module.specs.Ticks.{pinned};
    ghost use Rattle.sim_module.specs.declared.fixed.Fixed.{Fixed};

    /// The control bytes of the Active Control Set, lane 1 first.
    pub fn active(&self) -> ControlSet
        ensures { result ≡ lanes.active_bytes (bare self.now) }
    {
        array::from_fn(|index| self.lanes[index].active)
    }

    // The control bytes of Staged Control Set 0, lane 1 first.
    pub(crate) fn staged(&self) -> ControlSet
        ensures { result ≡ lanes.staged_bytes (bare self.now) }
    {
        array::from_fn(|index| self.lanes[index].staged)
    }

    // The states of the lanes' data paths, lane 1 first.
    pub(crate) fn path_states(&self) -> [PathState; 8]
        ensures { result ≡ lanes.path_states (bare self.now) }
    {
        let mut states = [PathState::Deactivated; 8];
        for (index, state) in states.iter_mut().enumerate() {
            *state = self.lanes[index].path;
        }
        states
    }

    pub(crate) fn lane(&self, lane: LaneNumber) -> Lane
        ensures { result ≡ lanes.lane_at (bare self.now) lane }
    {
        lane_in(&self.lanes, lane)
    }

    pub(crate) fn is_deactivated(&self, lane: LaneNumber) -> bool
        ensures { result ≡ lanes.is_deactivated (bare self.now) lane }
    {
        self.lane(lane).path == PathState::Deactivated
    }

    /// The host holds the low power pin, or leaves it.
    pub fn low_power_pin(&mut self, on: bool)
        ensures { (fixed : Fixed) → module_of fixed self.new ≡ pinned (module_of fixed self.old) on }
    {
        self.pin = on;
    }
}

/// One of all lanes.
pub fn lane_in(lanes: &[Lane; 8], lane: LaneNumber) -> Lane
    ensures { result ≡ get_or lanes.now (lane - 1) no_lane }
{
    lanes[lane.index()]
}
