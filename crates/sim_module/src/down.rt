//! Which lanes are to be deactivated, or kept so.
ghost use Rattle.std.specs.Prelude.{◌≡◌};
ghost use Rattle.sim_module.specs.Down as spec;

use crate::moving::Moving;
use control_sets::{ControlSet, agree, control_at};
use field_tables::{LaneNumber, field, is_set};
use module_states::{ModuleState, low_power};

impl Moving {
    ghost use Rattle.std.specs.Prelude.{◌≡◌};
    ghost use Rattle.sim_module.specs.Lanes.{active_bytes};
    ghost use Rattle.sim_module.specs.Record.{bare};
    ghost use Rattle.sim_module.specs.Down as spec;

    pub(crate) fn has_low_power(&self) -> bool
        ensures { result ≡ spec.has_low_power (bare self.now) }
    {
        asks_low_power(self.control, self.pin)
    }

    fn is_ready(&self) -> bool
        ensures { result ≡ spec.is_ready (bare self.now) }
    {
        self.state == ModuleState::Ready
    }

    fn holds_down(&self, lane: LaneNumber) -> bool
        ensures { result ≡ spec.holds_down (bare self.now) lane }
    {
        self.deinit.contains(lane.number()) || self.lane(lane).is_in_progress()
    }

    // Whether some lane does.
    pub(crate) fn is_held(&self) -> bool
        ensures { result ≡ spec.is_held (bare self.now) }
    {
        LaneNumber::all().iter().any(|lane| self.holds_down(*lane))
    }

    // Given the active bytes, and whether some lane holds down its path.
    fn is_path_down(&self, active: &ControlSet, held: bool, lane: LaneNumber) -> bool
        requires active { active.now ≡ active_bytes (bare self.now) }
        requires held { held ≡ spec.is_held (bare self.now) }
        ensures { result ≡ spec.is_path_down (bare self.now) lane }
    {
        if !held {
            return false;
        }
        LaneNumber::all().iter().any(|other| agree(active, lane, *other) && self.holds_down(*other))
    }

    // Given the same.
    #[tactic(auto, unfolding(crate::specs::Down::is_down))]
    pub(crate) fn is_down(&self, active: &ControlSet, held: bool, lane: LaneNumber) -> bool
        requires active { active.now ≡ active_bytes (bare self.now) }
        requires held { held ≡ spec.is_held (bare self.now) }
        ensures { result ≡ spec.is_down (bare self.now) lane }
    {
        !control_at(active, lane).is_used()
            || self.is_path_down(active, held, lane)
            || !self.is_ready()
            || self.has_low_power()
    }
}

/// Whether the byte of global controls, with the pin, asks for low power.
pub fn asks_low_power(control: u8, pin: bool) -> bool
    ensures { result ≡ spec.asks_low_power control pin }
{
    let allows_pin = is_set(field!(Cmis LowPwrAllowHW), control);
    let asks = is_set(field!(Cmis LowPwrRequestSW), control);
    low_power(allows_pin, pin, asks)
}
